ghost use Rattle.std.specs.Prelude.{◌≡◌};
ghost use Rattle.region_view.specs.Sizes.{IsWithinLimits, Sizes, all_words, checked, is_size};

use std::marker::Model;

/// The sizes of a pool, each within its limits.
#[derive(Clone, Copy, Debug)]
pub struct Shape {
    /// Memory nodes, 1 to 8.
    pub nodes: u32,
    /// Replicas of a region, 1 to 5, and at most the nodes.
    pub replicas: u32,
    /// Data regions, 1 to 63.
    pub regions: u32,
    /// Blocks of a data region, 1 to 64, of 64 units of 8 words each.
    pub blocks: u32,
    /// Bucket groups, 1 to 256, of 24 slots each.
    pub groups: u32,
    /// Clients, 1 to 64.
    pub clients: u32,
    /// Calls of a client, 1 to 16,777,215.
    pub calls: u32,
}

impl Model for Shape {
    ghost Value = { Sizes };

    ghost view = { λ s. record {
      nodes = s.nodes;
      replicas = s.replicas;
      regions = s.regions;
      blocks = s.blocks;
      groups = s.groups;
      clients = s.clients;
      calls = s.calls;
    } };

    ghost invariant = { λ s. IsWithinLimits (record {
      nodes = s.nodes;
      replicas = s.replicas;
      regions = s.regions;
      blocks = s.blocks;
      groups = s.groups;
      clients = s.clients;
      calls = s.calls;
    }) };

    ghost inverse = { λ v. record {
      nodes = v.nodes;
      replicas = v.replicas;
      regions = v.regions;
      blocks = v.blocks;
      groups = v.groups;
      clients = v.clients;
      calls = v.calls;
    } };
}

/// A size of a pool.
#[derive(Clone, Copy, Debug, PartialEq, Eq)]
pub enum Field {
    Nodes,
    Replicas,
    Regions,
    Blocks,
    Groups,
    Clients,
    Calls,
}

/// Sizes that no pool has.
#[derive(Clone, Copy, Debug, PartialEq, Eq)]
pub struct BadShape {
    /// The first that is out of its limits, in the order of the arguments.
    pub field: Field,
}

/// The shape with these sizes, or the first of them that is out of its limits.
pub fn shape_of(
    nodes: u32,
    replicas: u32,
    regions: u32,
    blocks: u32,
    groups: u32,
    clients: u32,
    calls: u32,
) -> Result<Shape, BadShape>
    ensures { result ≡ checked (record {
      nodes = nodes;
      replicas = replicas;
      regions = regions;
      blocks = blocks;
      groups = groups;
      clients = clients;
      calls = calls;
    }) }
{
    if !is_size(8, nodes) {
        return Err(BadShape {
            field: Field::Nodes,
        });
    }
    if !is_size(5, replicas) || replicas > nodes {
        return Err(BadShape {
            field: Field::Replicas,
        });
    }
    if !is_size(63, regions) {
        return Err(BadShape {
            field: Field::Regions,
        });
    }
    if !is_size(64, blocks) {
        return Err(BadShape {
            field: Field::Blocks,
        });
    }
    if !is_size(256, groups) {
        return Err(BadShape {
            field: Field::Groups,
        });
    }
    if !is_size(64, clients) {
        return Err(BadShape {
            field: Field::Clients,
        });
    }
    if !is_size(16_777_215, calls) {
        return Err(BadShape {
            field: Field::Calls,
        });
    }
    Ok(Shape {
        nodes,
        replicas,
        regions,
        blocks,
        groups,
        clients,
        calls,
    })
}

fn is_size(limit: u32, size: u32) -> bool
    ensures { result ≡ is_size limit size }
{
    1 <= size && size <= limit
}

/// How many words a pool of this shape has, on all nodes.
pub fn words(shape: &Shape) -> u64
    ensures { result ≡ all_words shape.now }
{
    let region = 128 + 512 * u64::from(shape.blocks);
    let node = 48 * u64::from(shape.groups) + u64::from(shape.regions) * region;
    1040 + u64::from(shape.nodes) * node
}
