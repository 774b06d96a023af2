ghost use Rattle.std.specs.Prelude.{◌≡◌, [], ◌∷◌, IfOk};

use super::*;
use std::alloc::{AllocError, Global};
use std::test::Fail;

/// The control node, a live node and a lost one.
fn three_nodes(alloc: Global) -> Result<Nodes, AllocError>
    ensures { IfOk result (λ nodes. nodes ≡
        (7 ∷ 0 ∷ 5 ∷ 0 ∷ 0 ∷ 0 ∷ 0 ∷ 0 ∷ 0 ∷ 90 ∷ []) ∷ (40 ∷ 41 ∷ []) ∷ (50 ∷ 51 ∷ []) ∷ []) }
{
    let control = vec![in alloc; 7, 0, 5, 0, 0, 0, 0, 0, 0, 90]?;
    let live = vec![in alloc; 40, 41]?;
    let lost = vec![in alloc; 50, 51]?;
    Ok(Nodes::of_words(vec![in alloc; control, live, lost]?))
}

#[test]
fn verbs_on_a_live_node(rt: HostRuntime) -> Result<(), Fail> {
    let mut nodes = three_nodes(rt.alloc())?;
    let place = Place { node: 1, at: 1 };
    let swap = |expect, fresh| Verb::Swap {
        place,
        expect,
        fresh,
    };
    assert_eq!(rt; nodes.apply(Verb::Read(place), true), Answer::Word(41));
    assert_eq!(rt; nodes.word(place), 41);
    assert_eq!(rt; nodes.apply(Verb::Write(place, 60), true), Answer::Done);
    assert_eq!(rt; nodes.word(place), 60);
    assert_eq!(rt; nodes.apply(swap(60, 70), true), Answer::Word(60));
    assert_eq!(rt; nodes.word(place), 70);
    assert_eq!(rt; nodes.apply(swap(60, 80), true), Answer::Word(70));
    assert_eq!(rt; nodes.word(place), 70);
    assert_eq!(rt;
        nodes.apply(Verb::Add(place, u64::MAX), true),
        Answer::Word(70)
    );
    assert_eq!(rt; nodes.word(place), 69);
    assert_eq!(rt; nodes.word(Place { node: 1, at: 0 }), 40);
    Ok(())
}

#[test]
fn a_lost_node_is_refused(rt: HostRuntime) -> Result<(), Fail> {
    let mut nodes = three_nodes(rt.alloc())?;
    let place = Place { node: 2, at: 0 };
    assert_eq!(rt; nodes.apply(Verb::Write(place, 60), true), Answer::Lost);
    assert_eq!(rt; nodes.word(place), 50);
    assert_eq!(rt; nodes.apply(Verb::Write(place, 60), false), Answer::Done);
    assert_eq!(rt; nodes.word(place), 60);

    // The control node is not refused, although its status word is not 0 here.
    let last = Place { node: 0, at: 9 };
    assert_eq!(rt; nodes.apply(Verb::Add(last, 1), true), Answer::Word(90));
    assert_eq!(rt; nodes.word(last), 91);

    // Once its status word is 0, the node is live.
    let status = Place { node: 0, at: 2 };
    assert_eq!(rt; nodes.apply(Verb::Write(status, 0), true), Answer::Done);
    assert_eq!(rt; nodes.apply(Verb::Read(place), true), Answer::Word(60));
    Ok(())
}

#[test]
fn pages_are_there_once_written(rt: HostRuntime) -> Result<(), Fail> {
    let mut pages = Pages::zeros(rt.alloc(), 1025)?;
    assert_eq!(rt; pages.word(0), 0);
    pages.set(1024, 40);
    assert_eq!(rt; pages.word(512), 0);
    assert_eq!(rt; pages.stored_from(0), 1024);
    pages.set(511, 50);
    pages.set(512, 60);
    assert_eq!(rt; pages.word(0), 0);
    assert_eq!(rt; pages.word(511), 50);
    assert_eq!(rt; pages.word(512), 60);
    assert_eq!(rt; pages.word(1024), 40);
    assert_eq!(rt; pages.stored_from(0), 511);
    assert_eq!(rt; pages.stored_from(513), 1024);
    assert_eq!(rt; pages.stored_from(1025), 1025);
    Ok(())
}

#[test]
fn verbs_on_pages(rt: HostRuntime) -> Result<(), Fail> {
    let control = Pages::zeros(rt.alloc(), 9)?;
    let memory = Pages::zeros(rt.alloc(), 9)?;
    let mut nodes = Nodes::of_pages(vec![in rt.alloc(); control, memory]?);
    let place = Place { node: 1, at: 8 };
    let status = Place { node: 0, at: 1 };
    assert_eq!(rt; nodes.apply(Verb::Add(place, 7), true), Answer::Word(0));
    assert_eq!(rt; nodes.apply(Verb::Write(status, 1), true), Answer::Done);
    assert_eq!(rt; nodes.apply(Verb::Write(place, 0), true), Answer::Lost);
    assert_eq!(rt; nodes.word(place), 7);
    assert_eq!(rt; nodes.stored_from(1, 0), 8);
    Ok(())
}
