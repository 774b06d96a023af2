ghost use Rattle.std.specs.Prelude.{◌≡◌};
ghost use Rattle.script_text.specs.Keyword.{keyword_of, name_of};

/// The first word of a line of a script.
#[derive(Clone, Copy, Debug, PartialEq, Eq)]
pub(crate) enum Keyword {
    Shape,
    Register,
    Put,
    Get,
    Delete,
    Call,
    Step,
    Go,
    Late,
    Stop,
    Lose,
    Fill,
    Settle,
    Recover,
    Join,
    Task,
    Work,
    Verbs,
    Dump,
    Count,
    History,
}

pub(crate) const KEYWORDS: [Keyword; 21] = [
    Keyword::Shape,
    Keyword::Register,
    Keyword::Put,
    Keyword::Get,
    Keyword::Delete,
    Keyword::Call,
    Keyword::Step,
    Keyword::Go,
    Keyword::Late,
    Keyword::Stop,
    Keyword::Lose,
    Keyword::Fill,
    Keyword::Settle,
    Keyword::Recover,
    Keyword::Join,
    Keyword::Task,
    Keyword::Work,
    Keyword::Verbs,
    Keyword::Dump,
    Keyword::Count,
    Keyword::History,
];

/// The keyword that a word is.
#[tactic(auto, unfolding(crate::specs::Keyword::keyword_of))]
pub(crate) fn keyword_of(word: &[u8]) -> Option<Keyword>
    ensures { result ≡ keyword_of word.now }
{
    KEYWORDS
        .iter()
        .copied()
        .find(|keyword| name_of(*keyword) == word)
}

fn name_of(keyword: Keyword) -> &'static [u8]
    ensures { result.now ≡ name_of keyword }
{
    match keyword {
        Keyword::Shape => b"shape",
        Keyword::Register => b"register",
        Keyword::Put => b"put",
        Keyword::Get => b"get",
        Keyword::Delete => b"delete",
        Keyword::Call => b"call",
        Keyword::Step => b"step",
        Keyword::Go => b"go",
        Keyword::Late => b"late",
        Keyword::Stop => b"stop",
        Keyword::Lose => b"lose",
        Keyword::Fill => b"fill",
        Keyword::Settle => b"settle",
        Keyword::Recover => b"recover",
        Keyword::Join => b"join",
        Keyword::Task => b"task",
        Keyword::Work => b"work",
        Keyword::Verbs => b"verbs",
        Keyword::Dump => b"dump",
        Keyword::Count => b"count",
        Keyword::History => b"history",
    }
}
