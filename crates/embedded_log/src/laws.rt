//! What holds of a walk over a whole memory: the function does nothing, and its clauses are the law.

ghost use Rattle.std.specs.Prelude.{◌≡◌, ◌+◌, ℕ, List, [], None, Some, length};
ghost use Rattle.embedded_log.specs.Chains.{HasLinks, IsNewest, Linked, head_word, named, walk_over};
ghost use Rattle.machine.specs.LinkWalk.{link_walk_of};
ghost use Rattle.machine.specs.declared.link_walk.Walked.TheVariants.{End};
ghost use Rattle.region_view.specs.Placed.{Viewed};
ghost use Rattle.region_view.specs.Sizes.{IsWithinLimits};
ghost use Rattle.verb_words.specs.declared.verbs.Place.{Place};

/// On a memory that has the links of a client's calls, the walk ends with the object whose link is of
/// the latest call, also where objects were linked again, and with the reserve that this link names.
/// Where there is no link, it ends with no object, and the head word names the reserve.
pub fn a_walk_ends_with_the_newest_link()
    ensures linked { (words : Place → ℕ) (view : Viewed) (client class : ℕ) (links : List Linked)
        (newest : Linked) → IsWithinLimits view.shape → HasLinks words view client class links
        → IsNewest links newest
        → walk_over words (length links + 2) (link_walk_of view client class)
        ≡ End (Some (newest.object, newest.call)) (named newest.next) }
    ensures unlinked { (words : Place → ℕ) (view : Viewed) (client class : ℕ)
        → IsWithinLimits view.shape → HasLinks words view client class []
        → walk_over words 2 (link_walk_of view client class)
        ≡ End None (named (head_word words client class)) }
{}
