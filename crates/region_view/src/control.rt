ghost use Rattle.std.specs.Prelude.{◌≡◌, ◌<◌, ◌≤◌};
ghost use Rattle.region_view.specs.Control.{begin_position, head_position, pause_position};

/// The position of a client's begin word on the control node. The client is 1 to 64.
pub fn begin_at(client: u32) -> u32
    requires least { 1 ≤ client }
    requires most { client ≤ 64 }
    ensures { result ≡ begin_position client }
{
    16 + 16 * (client - 1)
}

/// The position of a client's pause word on the control node. The client is 1 to 64.
pub fn pause_at(client: u32) -> u32
    requires least { 1 ≤ client }
    requires most { client ≤ 64 }
    ensures { result ≡ pause_position client }
{
    begin_at(client) + 1
}

/// The position of a client's head word of a class on the control node. The client is 1 to 64, the
/// class 0 to 7.
pub fn head_at(client: u32, class: u8) -> u32
    requires least { 1 ≤ client }
    requires most { client ≤ 64 }
    requires class { class < 8 }
    ensures { result ≡ head_position client class }
{
    begin_at(client) + 2 + u32::from(class)
}
