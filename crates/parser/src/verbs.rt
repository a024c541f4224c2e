//! The commands' words, and the kinds of their operands.

ghost use Rattle.std.specs.Prelude.{◌≡◌};
ghost use Rattle.std.specs.Prelude.{true, false};
ghost use Rattle.parser.specs.declared.verbs.Kind.TheVariants.{Nothing};
ghost use Rattle.parser.specs.Verbs.{row_of, verb_of, is_for_worker, IsSmall, IsWide};

/// The kind of an operand.
#[derive(Clone, Copy, Debug, PartialEq, Eq)]
pub enum Kind {
    /// There is none.
    Nothing,
    /// A register that exists.
    Register,
    /// A number of 32 bits.
    Number,
    /// A thread that exists.
    ThreadName,
    /// A number of 64 bits.
    Long,
    /// An address `P.O`: a page of 32 bits, and an offset within a page.
    Address,
    /// A number from 0 to 100.
    Percent,
}

/// A command's verb: its word, with its operands. Registers, globals and threads count from 0, pages from 1; offsets
/// are in words.
#[derive(Clone, Copy, Debug, PartialEq, Eq)]
pub enum Verb {
    /// `take n`
    Take,
    /// `give`
    Give,
    /// `new rD L`
    New,
    /// `load rD rO i`
    Load,
    /// `loadg rD g`
    LoadGlobal,
    /// `trap`
    Trap,
    /// `heal`
    Heal,
    /// `finish`
    Finish,
    /// `store rO i rS`
    Store,
    /// `storeg g rS`
    StoreGlobal,
    /// `datum rO j`
    Datum,
    /// `set rO j v`
    Set,
    /// `same rA rB`
    Same,
    /// `null rA`
    Null,
    /// `mov rD rS`
    Move,
    /// `clear rD`
    Clear,
    /// `cross`
    Cross,
    /// `scrub rX`
    Scrub,
    /// `park`
    Park,
    /// `unpark`
    Unpark,
    /// `get rD rO i`: a complete load of a field.
    Get,
    /// `getg rD g`: a complete load of a global.
    GetGlobal,
    /// `mark`
    Mark,
    /// `endmark`
    EndMark,
    /// `pick P.O`
    Pick,
    /// `scan`
    Scan,
    /// `scang g`
    ScanGlobal,
    /// `crossfor tN`
    CrossFor,
    /// `drain`: a worker scans until nothing is left that it can scan.
    Drain,
    /// `protect P P ..`
    Protect,
    /// `copy P e`
    Copy,
    /// `copyall P`
    CopyAll,
    /// `release P`
    Release,
    /// `cycle p`: a complete cycle, in a run by threads.
    Cycle,
    /// `roll p`: a cycle until pages are protected, in a run by threads. The next mark copies the objects that it
    /// meets there.
    Roll,
}

/// All verbs, in the order in which a word is compared with them if the guess by `likely` is wrong.
const VERBS: [Verb; 35] = [
    Verb::Get,
    Verb::Set,
    Verb::Datum,
    Verb::Store,
    Verb::Move,
    Verb::New,
    Verb::Load,
    Verb::Same,
    Verb::Null,
    Verb::Clear,
    Verb::GetGlobal,
    Verb::StoreGlobal,
    Verb::LoadGlobal,
    Verb::Take,
    Verb::Give,
    Verb::Trap,
    Verb::Heal,
    Verb::Finish,
    Verb::Cross,
    Verb::Scrub,
    Verb::Park,
    Verb::Unpark,
    Verb::Scan,
    Verb::Pick,
    Verb::ScanGlobal,
    Verb::Drain,
    Verb::CrossFor,
    Verb::Copy,
    Verb::CopyAll,
    Verb::Release,
    Verb::Protect,
    Verb::Mark,
    Verb::EndMark,
    Verb::Cycle,
    Verb::Roll,
];

/// The kinds of a verb's operands. The first three have 32 bits.
#[derive(Clone, Copy, Debug, PartialEq, Eq)]
pub struct Kinds {
    /// The kind of the first operand.
    pub first: Kind,
    /// The kind of the second one.
    pub second: Kind,
    /// The kind of the third one.
    pub third: Kind,
    /// The kind of the operand of 64 bits, which follows the others.
    pub wide: Kind,
    /// Whether any number of numbers of 32 bits may follow, to the end of the line.
    pub more: bool,
}

fn make_kinds(first: Kind, second: Kind, third: Kind, wide: Kind) -> Kinds
    ensures { result ≡ record { first = first; second = second; third = third; wide = wide; more = false } }
{
    Kinds {
        first,
        second,
        third,
        wide,
        more: false,
    }
}

/// Returns the kinds of one operand, with more numbers after it.
fn with_more(first: Kind) -> Kinds
    ensures { result ≡ record { first = first; second = Nothing; third = Nothing; wide = Nothing; more = true } }
{
    Kinds {
        first,
        second: Kind::Nothing,
        third: Kind::Nothing,
        wide: Kind::Nothing,
        more: true,
    }
}

impl Verb {
    /// Returns its word.
    fn text(self) -> &'static [u8]
        ensures { result.now ≡ (row_of self).text }
    {
        match self {
            Verb::Take => b"take",
            Verb::Give => b"give",
            Verb::New => b"new",
            Verb::Load => b"load",
            Verb::LoadGlobal => b"loadg",
            Verb::Trap => b"trap",
            Verb::Heal => b"heal",
            Verb::Finish => b"finish",
            Verb::Store => b"store",
            Verb::StoreGlobal => b"storeg",
            Verb::Datum => b"datum",
            Verb::Set => b"set",
            Verb::Same => b"same",
            Verb::Null => b"null",
            Verb::Move => b"mov",
            Verb::Clear => b"clear",
            Verb::Cross => b"cross",
            Verb::Scrub => b"scrub",
            Verb::Park => b"park",
            Verb::Unpark => b"unpark",
            Verb::Get => b"get",
            Verb::GetGlobal => b"getg",
            Verb::Mark => b"mark",
            Verb::EndMark => b"endmark",
            Verb::Pick => b"pick",
            Verb::Scan => b"scan",
            Verb::ScanGlobal => b"scang",
            Verb::CrossFor => b"crossfor",
            Verb::Drain => b"drain",
            Verb::Protect => b"protect",
            Verb::Copy => b"copy",
            Verb::CopyAll => b"copyall",
            Verb::Release => b"release",
            Verb::Cycle => b"cycle",
            Verb::Roll => b"roll",
        }
    }

    /// Returns the kinds of its operands.
    pub fn kinds(self) -> Kinds
        ensures value { result ≡ (row_of self).kinds }
        ensures small { IsSmall result.first × (IsSmall result.second × IsSmall result.third) }
        ensures wide { IsWide result.wide }
    {
        use Kind::{Address, Long, Nothing, Number, Percent, Register, ThreadName};
        match self {
            Verb::Take | Verb::ScanGlobal | Verb::CopyAll | Verb::Release => make_kinds(
                Number, Nothing, Nothing, Nothing,
            ),
            Verb::New | Verb::LoadGlobal | Verb::Datum | Verb::GetGlobal => make_kinds(
                Register, Number, Nothing, Nothing,
            ),
            Verb::Load | Verb::Get => make_kinds(Register, Register, Number, Nothing),
            Verb::Store => make_kinds(Register, Number, Register, Nothing),
            Verb::StoreGlobal => make_kinds(Number, Register, Nothing, Nothing),
            Verb::Set => make_kinds(Register, Number, Nothing, Long),
            Verb::Same | Verb::Move => make_kinds(Register, Register, Nothing, Nothing),
            Verb::Null | Verb::Clear | Verb::Scrub => make_kinds(
                Register, Nothing, Nothing, Nothing,
            ),
            Verb::Protect => with_more(Number),
            Verb::Copy => make_kinds(Number, Number, Nothing, Nothing),
            Verb::Pick => make_kinds(Nothing, Nothing, Nothing, Address),
            Verb::CrossFor => make_kinds(ThreadName, Nothing, Nothing, Nothing),
            Verb::Cycle | Verb::Roll => make_kinds(Percent, Nothing, Nothing, Nothing),
            _ => make_kinds(Nothing, Nothing, Nothing, Nothing),
        }
    }

    /// Returns whether workers do it. Threads do all other verbs.
    pub fn is_for_worker(self) -> bool
        ensures { result ≡ is_for_worker self }
    {
        matches!(
            self,
            Verb::Mark
                | Verb::EndMark
                | Verb::Pick
                | Verb::Scan
                | Verb::ScanGlobal
                | Verb::CrossFor
                | Verb::Drain
                | Verb::Protect
                | Verb::Copy
                | Verb::CopyAll
                | Verb::Release
                | Verb::Cycle
                | Verb::Roll
        )
    }
}

/// Returns a guess which verb a word is, by its first byte, its third one and its length. It is right for each verb's
/// word; only the time depends on it, since the word is then compared with that verb's.
fn likely(first: u8, third: u8, length: usize) -> Verb {
    match first {
        b'c' => match third {
            b'e' => Verb::Clear,
            b'o' if length == 5 => Verb::Cross,
            b'o' => Verb::CrossFor,
            b'c' => Verb::Cycle,
            _ if length == 4 => Verb::Copy,
            _ => Verb::CopyAll,
        },
        b'd' if third == b't' => Verb::Datum,
        b'd' => Verb::Drain,
        b'e' => Verb::EndMark,
        b'f' => Verb::Finish,
        b'g' if third == b'v' => Verb::Give,
        b'g' if length == 3 => Verb::Get,
        b'g' => Verb::GetGlobal,
        b'h' => Verb::Heal,
        b'l' if length == 4 => Verb::Load,
        b'l' => Verb::LoadGlobal,
        b'm' if third == b'v' => Verb::Move,
        b'm' => Verb::Mark,
        b'n' if third == b'w' => Verb::New,
        b'n' => Verb::Null,
        b'p' => match third {
            b'r' => Verb::Park,
            b'c' => Verb::Pick,
            _ => Verb::Protect,
        },
        b'r' if length == 4 => Verb::Roll,
        b'r' => Verb::Release,
        b's' => likely_in_s(third, length),
        b't' if third == b'k' => Verb::Take,
        b't' => Verb::Trap,
        _ => Verb::Unpark,
    }
}

/// Returns such a guess for a word that begins with `s`.
fn likely_in_s(third: u8, length: usize) -> Verb {
    match third {
        b't' => Verb::Set,
        b'o' if length == 5 => Verb::Store,
        b'o' => Verb::StoreGlobal,
        b'm' => Verb::Same,
        b'r' => Verb::Scrub,
        _ if length == 4 => Verb::Scan,
        _ => Verb::ScanGlobal,
    }
}

/// Returns the verb of a word, by comparison with all.
#[tactic(auto, unfolding(crate::specs::Verbs::verb_of))]
fn sought(word: &[u8]) -> Option<Verb>
    ensures { result ≡ verb_of word.now }
{
    VERBS.iter().copied().find(|verb| word == verb.text())
}

/// Returns the verb of a word.
#[tactic(auto, using(crate::proofs::ActorsAndOrders::verb_met))]
pub fn verb_of(word: &[u8]) -> Option<Verb>
    ensures { result ≡ verb_of word.now }
{
    if let [first, _, third, ..] = word {
        let verb = likely(*first, *third, word.len());
        if word == verb.text() {
            return Some(verb);
        }
    }
    sought(word)
}
