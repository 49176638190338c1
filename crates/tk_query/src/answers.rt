//! What the matchers answer.
ghost use Rattle.std.specs.Prelude.{◌≡◌, Some, ◌≤◌, length};
ghost use Rattle.std.specs.Fmt.{WritesOnOk};
ghost use Rattle.std.specs.List.{flat_map};
ghost use Rattle.tk_query.specs.AnswerTexts.{exact_text, exact_yes, exclusive_text, exclusive_yes, in_order_text, in_order_yes, loose_text, loose_yes, position_text};

use std::fmt;

/// Whether the conditions are those of the events, one for each, in their order.
#[derive(Clone, Copy, Debug, PartialEq, Eq)]
pub enum Exact {
    /// There is one condition for each event, and each holds of its event.
    Yes,
    /// There are more conditions than events, or fewer.
    WrongCount,
    /// The number of the first condition that doesn't hold of the event of that number.
    No(usize),
}

impl Exact {
    /// Whether the answer is a yes.
    pub fn is_yes(&self) -> bool
        ensures { result ≡ exact_yes self.now }
    {
        matches!(self, Exact::Yes)
    }
}

/// The words of the answer: `yes`, `wrong-count` or `no K`.
impl fmt::Display for Exact {
    ghost output = { λ answer. Some (exact_text answer) };

    fn fmt<W: fmt::Write>(&self, f: &mut fmt::Formatter<W>) -> fmt::Result {
        match self {
            Exact::Yes => f.write_str("yes"),
            Exact::WrongCount => f.write_str("wrong-count"),
            Exact::No(k) => write!(f, "no {k}"),
        }
    }
}

/// Whether each condition holds of some event.
#[derive(Clone, Copy, Debug, PartialEq, Eq)]
pub enum Loose {
    /// Each condition holds of some event.
    Yes,
    /// The number of the first condition that holds of no event.
    No(usize),
}

impl Loose {
    /// Whether the answer is a yes.
    pub fn is_yes(&self) -> bool
        ensures { result ≡ loose_yes self.now }
    {
        matches!(self, Loose::Yes)
    }
}

/// The words of the answer: `yes` or `no K`.
impl fmt::Display for Loose {
    ghost output = { λ answer. Some (loose_text answer) };

    fn fmt<W: fmt::Write>(&self, f: &mut fmt::Formatter<W>) -> fmt::Result {
        match self {
            Loose::Yes => f.write_str("yes"),
            Loose::No(k) => write!(f, "no {k}"),
        }
    }
}

/// Whether conditions hold in turn, each at a later event than the one before it, and where.
#[derive(Debug, Drop)]
pub enum InOrder {
    /// The conditions hold in turn at these positions, the lexicographically least in the record.
    Yes(Vec<usize>),
    /// The least number K such that the conditions 0 to K hold in turn nowhere.
    No(usize),
}

// Writes each position after a blank.
fn write_positions<W: fmt::Write>(positions: &[usize], f: &mut fmt::Formatter<W>) -> fmt::Result
    ensures { WritesOnOk W.write_str_gives f.old result
        (flat_map position_text positions.now) f.new }
{
    for position in positions {
        write!(f, " {position}")?;
    }
    Ok(())
}

impl InOrder {
    /// Whether the answer is a yes.
    pub fn is_yes(&self) -> bool
        ensures { result ≡ in_order_yes self.now }
    {
        matches!(self, InOrder::Yes(_))
    }
}

/// The words of the answer: `yes`, a blank and each position; or `no K`.
impl fmt::Display for InOrder {
    ghost output = { λ answer. Some (in_order_text answer) };

    fn fmt<W: fmt::Write>(&self, f: &mut fmt::Formatter<W>) -> fmt::Result {
        match self {
            InOrder::Yes(positions) => {
                f.write_str("yes")?;
                write_positions(positions.as_slice(), f)
            }
            InOrder::No(k) => write!(f, "no {k}"),
        }
    }
}

/// Whether executions that conflict kept away from each other.
#[derive(Clone, Copy, Debug, PartialEq, Eq)]
pub enum Exclusive {
    /// Some executions conflict, and no two that conflict overlap.
    Yes,
    /// The positions of the starts of two executions that conflict and overlap: the least second
    /// one, and the least first one for it.
    No(usize, usize),
    /// No two executions conflict, so that nothing was compared.
    NoPair,
}

impl Exclusive {
    /// Whether the answer is a yes.
    pub fn is_yes(&self) -> bool
        ensures { result ≡ exclusive_yes self.now }
    {
        matches!(self, Exclusive::Yes)
    }
}

/// The words of the answer: `yes`, `no P Q` or `no pair`.
impl fmt::Display for Exclusive {
    ghost output = { λ answer. Some (exclusive_text answer) };

    fn fmt<W: fmt::Write>(&self, f: &mut fmt::Formatter<W>) -> fmt::Result {
        match self {
            Exclusive::Yes => f.write_str("yes"),
            Exclusive::No(first, second) => write!(f, "no {first} {second}"),
            Exclusive::NoPair => f.write_str("no pair"),
        }
    }
}
