// The highest and the lowest of what is seen one after the other: heights with their places, and times.
ghost use Rattle.std.specs.Prelude.{◌≡◌, Bool};
ghost use Rattle.report.specs.Range.{between, higher, joined, turned};
ghost use Rattle.report.specs.Peak.{range_in};
ghost use Rattle.report.specs.Figures.{earlier};

// What is ordered by some measure of its own, as heights are by their metres.
pub trait Measured: Copy {
    ghost lower: { Self → Self → Bool };

    // Its measure is the lower.
    fn below(self, other: Self) -> bool
        ensures { result ≡ lower self other };
}

// The highest and the lowest, and of equals the one that was seen first. Where nothing was seen there are none.
#[derive(Clone, Copy)]
pub struct Extremes<P> {
    pub high: P,
    pub low: P,
}

// Seconds since midnight: the highest are the latest, the lowest the earliest.
impl Measured for u32 {
    ghost lower = { earlier };

    fn below(self, other: u32) -> bool {
        self < other
    }
}

// The higher of two, of equals the first.
fn higher<P: Measured>(first: P, later: P) -> P
    ensures { result ≡ higher P.lower first later }
{
    if first.below(later) { later } else { first }
}

// The lower of two, of equals the first.
fn lower<P: Measured>(first: P, later: P) -> P
    ensures { result ≡ higher (turned P.lower) first later }
{
    if later.below(first) { later } else { first }
}

// What was seen first, and what was seen later, as one.
pub fn joined<P: Measured>(
    first: Option<Extremes<P>>,
    later: Option<Extremes<P>>,
) -> Option<Extremes<P>>
    ensures { range_in result ≡ joined P.lower (range_in first) (range_in later) }
{
    match (first, later) {
        (None, _) => later,
        (_, None) => first,
        (Some(a), Some(b)) => Some(Extremes {
            high: higher(a.high, b.high),
            low: lower(a.low, b.low),
        }),
    }
}

// Of one more, seen after the others.
pub(crate) fn after<P: Measured>(range: Option<Extremes<P>>, seen: P) -> Option<Extremes<P>>
    ensures { range_in result ≡ joined P.lower (range_in range) (between seen seen) }
{
    let one = Extremes {
        high: seen,
        low: seen,
    };
    joined(range, Some(one))
}
