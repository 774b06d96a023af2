ghost use Rattle.std.specs.Prelude.{◌≡◌, ◌≢◌, ◌%◌, ◌^◌, ◌<◌, IfSome, IfNone};
ghost use Rattle.object_form.specs.declared.links.Link.{Link};
ghost use Rattle.object_form.specs.Link.{word_of_link, is_link, is_next, link_in, IsLink};

/// Which call an object was taken for, and the object that its client takes next.
#[derive(Clone, Copy, Debug, PartialEq, Eq)]
pub struct Link {
    /// The client, 1 to 64.
    pub client: u32,
    /// The number of the client's call, 1 to 16,777,215.
    pub call: u32,
    /// The pointer to the client's next reserve, whose region is 1 to 63; 0 where there is none.
    pub next: u32,
}

/// The word of a link: its client in bits 52 to 63, the number of the call in bits 28 to 51, and
/// the pointer to the next reserve in bits 0 to 27.
///
/// Of fields beyond their limits it is the sum modulo 2^64.
pub fn link_word(link: Link) -> u64
    ensures word { result ≡ word_of_link link % 2 ^ 64 }
    ensures within { IsLink link → result ≡ word_of_link link }
{
    let client = u64::from(link.client % (1 << 12)) << 52;
    let call_and_next = (u64::from(link.call) << 28) + u64::from(link.next);
    client.wrapping_add(call_and_next)
}

/// The link that a word says, where it says one. The word 0 says none.
#[tactic(auto, unfolding(crate::specs::Link::link_in))]
pub fn link_of(word: u64) -> Option<Link>
    ensures found { IfSome result (λ link. IsLink link × (word_of_link link ≡ word)) }
    ensures none { IfNone result ((link : Link) → IsLink link → word_of_link link ≢ word) }
    ensures value { result ≡ link_in word }
{
    let link = Link {
        client: (word >> 52) as u32,
        call: ((word >> 28) % (1 << 24)) as u32,
        next: (word % (1 << 28)) as u32,
    };
    if is_link(link) { Some(link) } else { None }
}

fn is_link(link: Link) -> bool
    requires { link.call < 2 ^ 24 }
    ensures { result ≡ is_link link }
{
    if !(1..=64).contains(&link.client) || link.call == 0 {
        return false;
    }
    is_next(link.next)
}

fn is_next(next: u32) -> bool
    ensures { result ≡ is_next next }
{
    if next == 0 {
        return true;
    }
    (1..=63).contains(&(next >> 20))
}
