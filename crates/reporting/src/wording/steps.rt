//! The texts of actors, answers, errors and replies.

ghost use Rattle.std.specs.Prelude.{◌≡◌};
ghost use Rattle.reporting.specs.Texts.{answer_text, parts_text};

use model::{Actor, Answer, Reply};
use std::fmt;

/// An actor's text: `t0` is thread 0, `w0` worker 0.
#[derive(Clone, Copy, Debug, PartialEq, Eq)]
pub struct ActorText(pub Actor);

impl fmt::Display for ActorText {
    ghost use Rattle.std.specs.Prelude.{Some};
    ghost use Rattle.reporting.specs.Texts.{actor_text};

    ghost output = { λ t. Some (actor_text t.0) };

    fn fmt<W: fmt::Write>(&self, f: &mut fmt::Formatter<W>) -> fmt::Result {
        match self.0 {
            Actor::Thread(thread) => write!(f, "t{thread}"),
            Actor::Worker(worker) => write!(f, "w{worker}"),
        }
    }
}

/// An answer's text.
#[derive(Clone, Copy, Debug, PartialEq, Eq)]
pub struct AnswerText(pub Answer);

/// The text of an answer in its parts: words, each with a number after it.
pub(crate) enum AnswerParts {
    /// A word alone.
    Word(&'static str),
    /// A word, and a number.
    One(&'static str, u64),
    /// A word, a number, another word, and its number.
    Two(&'static str, u64, &'static str, u64),
}

impl AnswerParts {
    /// Returns the parts of an answer's text.
    pub(crate) fn of(answer: Answer) -> AnswerParts
        ensures { parts_text result ≡ answer_text answer }
    {
        use AnswerParts::{One, Two, Word};
        match answer {
            Answer::Lent { page, offset } => Two("lent ", u64::from(page), ".", u64::from(offset)),
            Answer::Birth(birth) => One("birth ", birth),
            Answer::Loaded => Word("loaded"),
            Answer::Moved => Word("moved"),
            Answer::Marked => Word("marked"),
            Answer::Clear => Word("clear"),
            Answer::Healed => Word("healed"),
            Answer::Changed => Word("changed"),
            Answer::Clean => Word("clean"),
            Answer::Scanned => Word("scanned"),
            Answer::Finished => Word("done"),
            Answer::Done => Word("ok"),
            Answer::Datum(value) => One("datum ", value),
            Answer::Truth(true) => Word("true"),
            Answer::Truth(false) => Word("false"),
            Answer::MovedTo { page, offset } => Two(
                "copied ",
                u64::from(page),
                ".",
                u64::from(offset),
            ),
            Answer::CopiedPage { copied } => One("copied all ", copied),
            Answer::Ended { live, retired } => Two("ended live ", live, " retired ", retired),
            Answer::Protected { objects, targets } => {
                Two("protected objects ", objects, " targets ", targets)
            }
            Answer::Released { free } => One("released free ", free),
        }
    }
}

impl fmt::Display for AnswerText {
    ghost use Rattle.std.specs.Prelude.{Some};
    ghost use Rattle.reporting.specs.Texts.{answer_text};

    ghost output = { λ t. Some (answer_text t.0) };

    fn fmt<W: fmt::Write>(&self, f: &mut fmt::Formatter<W>) -> fmt::Result {
        match AnswerParts::of(self.0) {
            AnswerParts::Word(word) => f.write_str(word),
            AnswerParts::One(word, number) => write!(f, "{word}{number}"),
            AnswerParts::Two(word, first, between, second) => {
                write!(f, "{word}{first}{between}{second}")
            }
        }
    }
}

/// The text of a reply: the answer's, or `refused ` and the error's.
#[derive(Clone, Copy, Debug, PartialEq, Eq)]
pub struct ReplyText(pub Reply);

impl fmt::Display for ReplyText {
    ghost use Rattle.std.specs.Prelude.{Some};
    ghost use Rattle.reporting.specs.Texts.{reply_text};

    ghost output = { λ t. Some (reply_text t.0) };

    fn fmt<W: fmt::Write>(&self, f: &mut fmt::Formatter<W>) -> fmt::Result {
        match self.0 {
            Ok(answer) => {
                let answer = AnswerText(answer);
                write!(f, "{answer}")
            }
            Err(refusal) => write!(f, "refused {refusal}"),
        }
    }
}
