//! The words of notices.

ghost use Rattle.std.specs.Prelude.{◌≡◌};
ghost use Rattle.mako_words.specs.Notices.{notice_word, FitsNotice, notice_at};
ghost use Rattle.mako_words.specs.Words.{Unpacks};

use crate::name::Name;
use crate::value::Value;

/// What a server tells the collector in a cycle.
#[derive(Clone, Copy, Debug, PartialEq, Eq)]
pub enum NoticeWord {
    /// The object of this name was freed.
    Freed(Name),
    /// The server has ended the cycle.
    Done,
}

impl NoticeWord {
    /// The word of this notice.
    pub fn pack(self) -> u64
        requires { FitsNotice self }
        ensures { result ≡ notice_word self }
    {
        match self {
            NoticeWord::Freed(name) => Value::Ref(name).pack(),
            NoticeWord::Done => 1,
        }
    }

    /// The notice of this word, or `None` where it is neither 1 nor the word of a name.
    #[tactic(auto, using(crate::proofs::NoticeWords::no_notice))]
    pub fn unpack(word: u64) -> Option<NoticeWord>
        ensures { Unpacks FitsNotice notice_word notice_at word result }
    {
        if word == 1 {
            return Some(NoticeWord::Done);
        }
        match Value::unpack(word)? {
            Value::Ref(name) => Some(NoticeWord::Freed(name)),
            Value::Null | Value::Num(_) => None,
        }
    }
}
