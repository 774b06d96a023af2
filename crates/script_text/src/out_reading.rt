//! An output line, read word by word.

ghost use Rattle.std.specs.Prelude.{◌≡◌, IfOk, OnOk, [], ◌∷◌};
ghost use Rattle.text_lines.specs.Words.{words_of};
ghost use Rattle.script_text.specs.OutputForm.{call_form, entry_form, line_form, line_of, lost_form, not_yet_form, add_form, named_line, numbered_refusal, of_form, read_form, swap_form, two_word_refusal, write_form, open_form, refusal_of, reply_form, task_form, verb_form};
ghost use Rattle.script_text.specs.OutputPlace.{AnyWords, past_all};
ghost use Rattle.script_text.specs.declared.scripts.CallText.TheVariants.{Get};
ghost use Rattle.script_text.specs.OutputRead.{IsLine};

use crate::byte_text::Text;
use crate::faults::{BadKind, ScriptFault};
use crate::out_lines::{NotYetText, OutLine, RefusalText, ReplyText};
use crate::out_names::{LineName, line_name};
use crate::out_words::LineWords;
use crate::scripts::CallText;
use crate::word_values::word_of;
use std::alloc::{AllocError, Global};
use text_lines::{has_bad_byte, next_word, number_of};

/// Reads the line of this number.
pub(crate) fn read_line(alloc: Global, number: u32, text: &[u8]) -> Result<OutLine, ScriptFault>
    ensures { IsLine result number (line_of text.now) }
{
    if has_bad_byte(text) {
        let kind = BadKind::Byte;
        return Err(ScriptFault::BadLine { number, kind });
    }
    let Some((word, rest)) = next_word(text) else {
        let kind = BadKind::Word;
        return Err(ScriptFault::BadLine { number, kind });
    };
    let Some(name) = line_name(word) else {
        let kind = BadKind::Word;
        return Err(ScriptFault::BadLine { number, kind });
    };
    read_named(alloc, number, name, rest)
}

fn read_named(
    alloc: Global,
    number: u32,
    name: LineName,
    rest: &[u8],
) -> Result<OutLine, ScriptFault>
    ensures { IsLine result number (of_form (line_form name (words_of rest.now)) (words_of rest.now)) }
{
    let mut words = LineWords::new(rest);
    let out = words.line(alloc, name)?;
    match words.end() {
        Some(kind) => Err(ScriptFault::BadLine { number, kind }),
        None => Ok(out),
    }
}

// Each of these reads from the first place of its form on.
impl<'a> LineWords<'a> {
    fn line(&mut self, alloc: Global, name: LineName) -> Result<OutLine, AllocError>
        ensures past { OnOk result (self.new ≡ past_all (line_form name self.old.words).places self.old) }
        ensures means { IfOk result (λ out. out ≡ (line_form name self.old.words).means) }
    {
        match name {
            LineName::Client => Ok(OutLine::Client(self.number())),
            LineName::Called => self.called(alloc),
            LineName::Ended => self.ended(alloc),
            LineName::NotYet => Ok(self.not_yet_line()),
            LineName::Took => {
                let actor = self.actor();
                let verbs = self.number();
                Ok(OutLine::Took { actor, verbs })
            }
            LineName::Stopped => Ok(OutLine::Stopped(self.number())),
            LineName::Lost => Ok(OutLine::Lost(self.number())),
            LineName::Task => Ok(self.task()),
            LineName::Recovered => Ok(OutLine::Recovered(self.number())),
            LineName::Opened => Ok(OutLine::Opened(self.word())),
            LineName::Waiting => {
                let client = self.number();
                let begin = self.word();
                Ok(OutLine::Waiting { client, begin })
            }
            LineName::Verb => Ok(self.verb()),
            LineName::Word => {
                let node = self.number();
                let at = self.number();
                let word = self.word();
                Ok(OutLine::Word { node, at, word })
            }
            LineName::Dumped => Ok(OutLine::Dumped(self.number())),
            LineName::Blocks => Ok(self.blocks()),
            LineName::Objects => Ok(self.objects()),
            LineName::History => Ok(OutLine::History(self.number())),
            LineName::Entry => self.entry(alloc),
            LineName::Refused => Ok(OutLine::Refused(self.refusal())),
            LineName::End => Ok(OutLine::End),
            LineName::Filled => Ok(OutLine::Filled(self.number())),
            LineName::Joined => Ok(OutLine::Joined(self.number())),
        }
    }

    fn called(&mut self, alloc: Global) -> Result<OutLine, AllocError>
        ensures past { OnOk result (self.new ≡ past_all (line_form LineName.Called self.old.words).places self.old) }
        ensures means { IfOk result (λ out. out ≡ (line_form LineName.Called self.old.words).means) }
    {
        let client = self.number();
        let number = self.number();
        let call = self.call(alloc)?;
        Ok(OutLine::Called {
            client,
            number,
            call,
        })
    }

    fn ended(&mut self, alloc: Global) -> Result<OutLine, AllocError>
        ensures past { OnOk result (self.new ≡ past_all (line_form LineName.Ended self.old.words).places self.old) }
        ensures means { IfOk result (λ out. out ≡ (line_form LineName.Ended self.old.words).means) }
    {
        let client = self.number();
        let number = self.number();
        let reply = self.reply(alloc)?;
        Ok(OutLine::Ended {
            client,
            number,
            reply,
        })
    }

    fn not_yet_line(&mut self) -> OutLine
        ensures past { self.new ≡ past_all (line_form LineName.NotYet self.old.words).places self.old }
        ensures means { result ≡ (line_form LineName.NotYet self.old.words).means }
    {
        let actor = self.actor();
        let why = self.not_yet();
        OutLine::NotYet { actor, why }
    }

    fn call(&mut self, alloc: Global) -> Result<CallText, AllocError>
        ensures past { OnOk result (self.new ≡ past_all (call_form self.old.words).places self.old) }
        ensures means { IfOk result (λ call. call ≡ (call_form self.old.words).means) }
    {
        let Some(name) = self.next() else {
            return no_call(alloc);
        };
        if name == b"put".as_slice() {
            let key = self.bytes(alloc)?;
            let value = self.bytes(alloc)?;
            return Ok(CallText::Put { key, value });
        }
        if name == b"get".as_slice() {
            let key = self.bytes(alloc)?;
            return Ok(CallText::Get { key });
        }
        if name == b"delete".as_slice() {
            let key = self.bytes(alloc)?;
            return Ok(CallText::Delete { key });
        }
        self.note(BadKind::Word);
        no_call(alloc)
    }

    fn reply(&mut self, alloc: Global) -> Result<ReplyText, AllocError>
        ensures past { OnOk result (self.new ≡ past_all (reply_form self.old.words).places self.old) }
        ensures means { IfOk result (λ reply. reply ≡ (reply_form self.old.words).means) }
    {
        let Some(name) = self.next() else {
            return Ok(ReplyText::Done);
        };
        if name == b"Done".as_slice() {
            return Ok(ReplyText::Done);
        }
        if name == b"Value".as_slice() {
            let value = self.bytes(alloc)?;
            return Ok(ReplyText::Value(value));
        }
        if name == b"Absent".as_slice() {
            return Ok(ReplyText::Absent);
        }
        if name == b"Full".as_slice() {
            return Ok(ReplyText::Full);
        }
        if name == b"NoSpace".as_slice() {
            let class = self.number();
            let client = self.number();
            let begin = self.word();
            return Ok(ReplyText::NoSpace {
                class,
                client,
                begin,
            });
        }
        self.note(BadKind::Word);
        Ok(ReplyText::Done)
    }

    fn not_yet(&mut self) -> NotYetText
        ensures past { self.new ≡ past_all (not_yet_form self.old.words).places self.old }
        ensures means { result ≡ (not_yet_form self.old.words).means }
    {
        let Some(name) = self.next() else {
            return NotYetText::Lost(0);
        };
        if name == b"Sealed".as_slice() {
            return NotYetText::Sealed(self.word());
        }
        if name == b"Lost".as_slice() {
            return NotYetText::Lost(self.number());
        }
        if name == b"Unchanged".as_slice() {
            let slot = self.number();
            let word = self.word();
            return NotYetText::Unchanged { slot, word };
        }
        self.note(BadKind::Word);
        NotYetText::Lost(0)
    }

    fn task(&mut self) -> OutLine
        ensures past { self.new ≡ past_all (task_form self.old.words).places self.old }
        ensures means { result ≡ (task_form self.old.words).means }
    {
        let Some(name) = self.next() else {
            return OutLine::TaskSettle;
        };
        if name == b"settle".as_slice() {
            return OutLine::TaskSettle;
        }
        if name == b"recover".as_slice() {
            return OutLine::TaskRecover(self.number());
        }
        if name == b"join".as_slice() {
            return OutLine::TaskJoin(self.number());
        }
        self.note(BadKind::Word);
        OutLine::TaskSettle
    }

    fn verb(&mut self) -> OutLine
        ensures past { self.new ≡ past_all (line_form LineName.Verb self.old.words).places self.old }
        ensures means { result ≡ (line_form LineName.Verb self.old.words).means }
    {
        let actor = self.actor();
        self.verb_of(actor)
    }

    fn verb_of(&mut self, actor: Option<u32>) -> OutLine
        ensures past { self.new ≡ past_all (verb_form actor self.old.words).places self.old }
        ensures means { result ≡ (verb_form actor self.old.words).means }
    {
        let Some(name) = self.next() else {
            return OutLine::TaskSettle;
        };
        if name == b"read".as_slice() {
            return self.read(actor);
        }
        if name == b"write".as_slice() {
            return self.write(actor);
        }
        if name == b"swap".as_slice() {
            return self.swap(actor);
        }
        if name == b"add".as_slice() {
            return self.add(actor);
        }
        self.note(BadKind::Word);
        OutLine::TaskSettle
    }

    // The verbs, from the word behind their kind on.

    fn read(&mut self, actor: Option<u32>) -> OutLine
        ensures past { self.new ≡ past_all (read_form actor self.old.words).places self.old }
        ensures means { result ≡ (read_form actor self.old.words).means }
    {
        let node = self.number();
        let at = self.number();
        self.exactly(b"=");
        let answer = self.answer();
        OutLine::VerbRead {
            actor,
            node,
            at,
            answer,
        }
    }

    fn write(&mut self, actor: Option<u32>) -> OutLine
        ensures past { self.new ≡ past_all (write_form actor self.old.words).places self.old }
        ensures means { result ≡ (write_form actor self.old.words).means }
    {
        let node = self.number();
        let at = self.number();
        let word = self.word();
        let lost = self.lost_mark();
        OutLine::VerbWrite {
            actor,
            node,
            at,
            word,
            lost,
        }
    }

    fn swap(&mut self, actor: Option<u32>) -> OutLine
        ensures past { self.new ≡ past_all (swap_form actor self.old.words).places self.old }
        ensures means { result ≡ (swap_form actor self.old.words).means }
    {
        let node = self.number();
        let at = self.number();
        let expect = self.word();
        let fresh = self.word();
        self.exactly(b"=");
        let answer = self.answer();
        OutLine::VerbSwap {
            actor,
            node,
            at,
            expect,
            fresh,
            answer,
        }
    }

    fn add(&mut self, actor: Option<u32>) -> OutLine
        ensures past { self.new ≡ past_all (add_form actor self.old.words).places self.old }
        ensures means { result ≡ (add_form actor self.old.words).means }
    {
        let node = self.number();
        let at = self.number();
        let amount = self.word();
        self.exactly(b"=");
        let answer = self.answer();
        OutLine::VerbAdd {
            actor,
            node,
            at,
            amount,
            answer,
        }
    }

    // Reads the ` = lost` that may stand last.
    fn lost_mark(&mut self) -> bool
        ensures past { self.new ≡ past_all (lost_form self.old.words).places self.old }
        ensures means { result ≡ (lost_form self.old.words).means }
    {
        if self.is_over() {
            return false;
        }
        self.exactly(b"=");
        self.exactly(b"lost");
        true
    }

    // Reads the ` open` that may stand last.
    fn open_mark(&mut self) -> bool
        ensures past { self.new ≡ past_all (open_form self.old.words).places self.old }
        ensures means { result ≡ (open_form self.old.words).means }
    {
        if self.is_over() {
            return false;
        }
        self.exactly(b"open");
        true
    }

    fn blocks(&mut self) -> OutLine
        ensures past { self.new ≡ past_all (line_form LineName.Blocks self.old.words).places self.old }
        ensures means { result ≡ (line_form LineName.Blocks self.old.words).means }
    {
        self.exactly(b"unused");
        let unused = self.number();
        self.exactly(b"owned");
        let owned = self.number();
        self.exactly(b"awaiting");
        let awaiting = self.number();
        self.exactly(b"released");
        let released = self.number();
        OutLine::Blocks {
            unused,
            owned,
            awaiting,
            released,
        }
    }

    fn objects(&mut self) -> OutLine
        ensures past { self.new ≡ past_all (line_form LineName.Objects self.old.words).places self.old }
        ensures means { result ≡ (line_form LineName.Objects self.old.words).means }
    {
        self.exactly(b"stock");
        let stock = self.number();
        self.exactly(b"present");
        let present = self.number();
        self.exactly(b"held");
        let held = self.number();
        OutLine::Objects {
            stock,
            present,
            held,
        }
    }

    fn entry(&mut self, alloc: Global) -> Result<OutLine, AllocError>
        ensures past { OnOk result (self.new ≡ past_all (entry_form self.old.words).places self.old) }
        ensures means { IfOk result (λ out. out ≡ (entry_form self.old.words).means) }
    {
        let client = self.number();
        let number = self.number();
        let call = self.call(alloc)?;
        let reply = self.reply(alloc)?;
        let unreturned = self.open_mark();
        Ok(OutLine::Entry {
            client,
            number,
            call,
            reply,
            unreturned,
        })
    }

    // Reads all words that are left.
    fn refusal(&mut self) -> RefusalText
        ensures past { self.new ≡ past_all (AnyWords ∷ []) self.old }
        ensures means { result ≡ refusal_of self.old.words }
    {
        refusal_of(self.take_rest())
    }
}

fn no_call(alloc: Global) -> Result<CallText, AllocError>
    ensures { IfOk result (λ call. call ≡ Get []) }
{
    let key = Text::of_vec(Vec::new(alloc));
    Ok(CallText::Get { key })
}

fn refusal_of(words: &[u8]) -> RefusalText
    ensures { result ≡ refusal_of (words_of words.now) }
{
    let Some((name, rest)) = next_word(words) else {
        return RefusalText::Other;
    };
    let Some((word, rest)) = next_word(rest) else {
        if name == b"task".as_slice() {
            return RefusalText::Task;
        }
        return RefusalText::Other;
    };
    if next_word(rest).is_some() {
        return RefusalText::Other;
    }
    two_word_refusal(name, word)
}

fn two_word_refusal(name: &[u8], word: &[u8]) -> RefusalText
    ensures { result ≡ two_word_refusal name.now word.now }
{
    if name == b"sealed".as_slice() {
        return match word_of(word) {
            Some(epoch) => RefusalText::Sealed(epoch),
            None => RefusalText::Other,
        };
    }
    match number_of(word) {
        Some(number) => numbered_refusal(name, number),
        None => RefusalText::Other,
    }
}

fn numbered_refusal(name: &[u8], number: u32) -> RefusalText
    ensures { result ≡ numbered_refusal name.now number }
{
    if name == b"clients".as_slice() {
        return RefusalText::Clients(number);
    }
    if name == b"unknown".as_slice() {
        return RefusalText::Unknown(number);
    }
    if name == b"stopped".as_slice() {
        return RefusalText::Stopped(number);
    }
    if name == b"busy".as_slice() {
        return RefusalText::Busy(number);
    }
    if name == b"key".as_slice() {
        return RefusalText::Key(number);
    }
    if name == b"value".as_slice() {
        return RefusalText::Value(number);
    }
    if name == b"spent".as_slice() {
        return RefusalText::Spent(number);
    }
    if name == b"idle".as_slice() {
        return RefusalText::Idle(number);
    }
    if name == b"live".as_slice() {
        return RefusalText::Live(number);
    }
    if name == b"running".as_slice() {
        return RefusalText::Running(number);
    }
    if name == b"recovered".as_slice() {
        return RefusalText::Recovered(number);
    }
    if name == b"node".as_slice() {
        return RefusalText::Node(number);
    }
    if name == b"gone".as_slice() {
        return RefusalText::Gone(number);
    }
    if name == b"lastlive".as_slice() {
        return RefusalText::LastLive(number);
    }
    if name == b"masked".as_slice() {
        return RefusalText::Masked(number);
    }
    RefusalText::Other
}
