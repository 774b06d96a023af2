//! The line of a verb as text. There is one for each verb of a run, so it is made in place: no memory
//! is asked for.

ghost use Rattle.std.specs.Prelude.{◌≡◌, ◌+◌, ◌≤◌, ◌++◌, [], ◌∷◌, codes, false, length, true};
ghost use Rattle.std.specs.Fmt.{decimal};
ghost use Rattle.script_text.specs.OutputText.{is_verb, joined, line_text, line_words, spaced};
ghost use Rattle.script_text.specs.Shown.{actor_text, answer_text};
ghost use Rattle.script_text.specs.declared.out_lines.OutLine.TheVariants.{VerbAdd, VerbRead, VerbSwap, VerbWrite};

use crate::out_lines::OutLine;
use crate::short_texts::{SHORT_LINE, put_number, put_text, put_word};
use arrayvec::ArrayVec;

/// Puts the line of a verb with its line feed, and answers true; of any other line nothing, and false.
#[inline(always)]
pub fn put_verb_line(into: &mut ArrayVec<u8, SHORT_LINE>, out: &OutLine) -> bool
    requires { into.old.items ≡ [] }
    ensures verb { result ≡ is_verb out.now }
    ensures line { result ≡ true → into.new.items ≡ line_text out.now }
    ensures other { result ≡ false → into.new.items ≡ [] }
{
    match out {
        OutLine::VerbRead {
            actor,
            node,
            at,
            answer,
        } => put_read(into, *actor, *node, *at, *answer),
        OutLine::VerbWrite {
            actor,
            node,
            at,
            word,
            lost,
        } => put_write(into, *actor, *node, *at, *word, *lost),
        OutLine::VerbSwap {
            actor,
            node,
            at,
            expect,
            fresh,
            answer,
        } => put_swap(into, *actor, *node, *at, *expect, *fresh, *answer),
        OutLine::VerbAdd {
            actor,
            node,
            at,
            amount,
            answer,
        } => put_add(into, *actor, *node, *at, *amount, *answer),
        _ => return false,
    }
    into.push(b'\n');
    true
}

fn put_read(
    into: &mut ArrayVec<u8, SHORT_LINE>,
    actor: Option<u32>,
    node: u32,
    at: u32,
    answer: Option<u64>,
)
    requires { into.old.items ≡ [] }
    ensures text { into.new.items ≡ joined (line_words (VerbRead actor node at answer)) }
    ensures few { length into.new.items ≤ 95 }
{
    put_verb(into, actor, b"read", node, at);
    put_answer(into, answer);
}

fn put_write(
    into: &mut ArrayVec<u8, SHORT_LINE>,
    actor: Option<u32>,
    node: u32,
    at: u32,
    word: u64,
    lost: bool,
)
    requires { into.old.items ≡ [] }
    ensures text { into.new.items ≡ joined (line_words (VerbWrite actor node at word lost)) }
    ensures few { length into.new.items ≤ 95 }
{
    put_verb(into, actor, b"write", node, at);
    put_word(into, word);
    if lost {
        put_text(into, b" = lost");
    }
}

fn put_swap(
    into: &mut ArrayVec<u8, SHORT_LINE>,
    actor: Option<u32>,
    node: u32,
    at: u32,
    expect: u64,
    fresh: u64,
    answer: Option<u64>,
)
    requires { into.old.items ≡ [] }
    ensures text { into.new.items ≡ joined (line_words (VerbSwap actor node at expect fresh answer)) }
    ensures few { length into.new.items ≤ 95 }
{
    put_verb(into, actor, b"swap", node, at);
    put_word(into, expect);
    put_word(into, fresh);
    put_answer(into, answer);
}

fn put_add(
    into: &mut ArrayVec<u8, SHORT_LINE>,
    actor: Option<u32>,
    node: u32,
    at: u32,
    amount: u64,
    answer: Option<u64>,
)
    requires { into.old.items ≡ [] }
    ensures text { into.new.items ≡ joined (line_words (VerbAdd actor node at amount answer)) }
    ensures few { length into.new.items ≤ 95 }
{
    put_verb(into, actor, b"add", node, at);
    put_word(into, amount);
    put_answer(into, answer);
}

// Each of these appends words, with a blank before each but the first word of a line.

fn put_verb(
    into: &mut ArrayVec<u8, SHORT_LINE>,
    actor: Option<u32>,
    name: &[u8],
    node: u32,
    at: u32,
)
    requires empty { into.old.items ≡ [] }
    requires short { length name.now ≤ 5 }
    ensures text { into.new.items ≡ joined (codes "v" ∷ actor_text actor ∷ name.now ∷ decimal node ∷ decimal at ∷ []) }
    ensures few { length into.new.items ≤ 40 }
{
    into.push(b'v');
    put_actor(into, actor);
    into.push(b' ');
    put_text(into, name);
    put_number(into, node);
    put_number(into, at);
}

fn put_actor(into: &mut ArrayVec<u8, SHORT_LINE>, actor: Option<u32>)
    requires { length into.old.items ≤ 80 }
    ensures text { into.new.items ≡ into.old.items ++ spaced (actor_text actor ∷ []) }
    ensures few { length into.new.items ≤ length into.old.items + 11 }
{
    match actor {
        None => put_text(into, b" m"),
        Some(client) => put_number(into, client),
    }
}

fn put_answer(into: &mut ArrayVec<u8, SHORT_LINE>, answer: Option<u64>)
    requires { length into.old.items ≤ 76 }
    ensures text { into.new.items ≡ into.old.items ++ spaced (codes "=" ∷ answer_text answer ∷ []) }
    ensures few { length into.new.items ≤ length into.old.items + 19 }
{
    match answer {
        None => put_text(into, b" = lost"),
        Some(word) => {
            put_text(into, b" =");
            put_word(into, word);
        }
    }
}
