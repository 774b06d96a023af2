//! What holds of the layout: each function does nothing, and its clause is the law.

ghost use Rattle.std.specs.Prelude.{◌≡◌, ◌≢◌, ◌+◌, ◌<◌, ◌≤◌, ℕ, AllPairs, filter, true};
ghost use Rattle.region_view.specs.Control.{ControlWord, HasControlWord, control_position};
ghost use Rattle.region_view.specs.Layout.{HasWord, NodeWord, offset_of, position_of, region_of_word};
ghost use Rattle.region_view.specs.Placed.{Viewed, in_mask, placed_node, region_size, region_start, replicas_of};
ghost use Rattle.region_view.specs.Sizes.{IsWithinLimits, Sizes, node_words};

/// A region is placed on different nodes.
pub fn a_region_is_placed_on_different_nodes()
    ensures { (sizes : Sizes) (region i j : ℕ) → IsWithinLimits sizes
        → i < sizes.replicas → j < sizes.replicas
        → placed_node sizes region i ≡ placed_node sizes region j → i ≡ j }
{}

/// Each region lies inside its nodes.
pub fn regions_lie_inside_nodes()
    ensures { (sizes : Sizes) (region : ℕ) → IsWithinLimits sizes → region ≤ sizes.regions
        → region_start sizes region + region_size sizes region ≤ node_words sizes }
{}

/// Of two regions the one with the lower number ends before the other begins.
pub fn regions_do_not_overlap()
    ensures { (sizes : Sizes) (lower higher : ℕ) → lower < higher
        → region_start sizes lower + region_size sizes lower ≤ region_start sizes higher }
{}

/// Each word of the layout lies inside its region, and so inside its node.
pub fn words_lie_inside()
    ensures region { (sizes : Sizes) (word : NodeWord) → IsWithinLimits sizes → HasWord sizes word
        → offset_of sizes word < region_size sizes (region_of_word word) }
    ensures node { (sizes : Sizes) (word : NodeWord) → IsWithinLimits sizes → HasWord sizes word
        → position_of sizes word < node_words sizes }
{}

/// Different words of the layout lie at different positions: slots, shadows, block words, bitmaps
/// and the words of units never overlap.
pub fn different_words_lie_apart()
    ensures { (sizes : Sizes) (one other : NodeWord) → IsWithinLimits sizes
        → HasWord sizes one → HasWord sizes other
        → position_of sizes one ≡ position_of sizes other → one ≡ other }
{}

/// The replicas of a region under a mask are different nodes.
pub fn replicas_are_different()
    ensures { (view : Viewed) (region : ℕ) → IsWithinLimits view.shape
        → AllPairs (λ one other. one ≢ other) (replicas_of view region) }
{}

/// A smaller mask leaves the replicas that are in it, in the same order.
pub fn a_smaller_mask_keeps_the_order()
    ensures { (view : Viewed) (smaller region : ℕ)
        → ((node : ℕ) → in_mask smaller node ≡ true → in_mask view.mask node ≡ true)
        → replicas_of (record { shape = view.shape; mask = smaller }) region
        ≡ filter (in_mask smaller) (replicas_of view region) }
{}

/// The words of the control node that have a use lie on it, at different positions.
pub fn control_words_lie_apart()
    ensures inside { (word : ControlWord) → HasControlWord word → control_position word < 1040 }
    ensures apart { (one other : ControlWord) → HasControlWord one → HasControlWord other
        → control_position one ≡ control_position other → one ≡ other }
{}
