//! Where the tests of a rule cut the numbers of a column. Nothing is promised of it: it is advice on where to cut.
use crate::folded::{bare, number_of};
use feel_text::{Bound, Test, TestsTree, Tree, high_end, low_end};
use std::alloc::{AllocError, Global};

/// The lowest and the highest number that may meet some tests.
#[derive(Clone, Copy)]
pub(crate) struct Hull {
    pub(crate) start: i64,
    pub(crate) end: i64,
}

/// The numbers between two, both included, that tests cut; and from where to where some of them may meet the tests.
#[derive(Drop)]
pub(crate) struct Bounds {
    pub(crate) low: i64,
    pub(crate) high: i64,
    /// The numbers at which a part begins, each rule's own, in no order.
    pub(crate) cuts: Vec<i64>,
    /// Of each test the lowest number that may meet it, or be barred by it. What a long entry lists stands for its middle alone.
    pub(crate) starts: Vec<i64>,
    /// And the highest.
    pub(crate) ends: Vec<i64>,
    /// Of each rule the numbers that may meet its tests.
    pub(crate) hulls: Vec<Hull>,
}

impl Bounds {
    /// Nothing is known of the numbers between these two.
    pub(crate) fn new(alloc: Global, low: i64, high: i64) -> Bounds {
        Bounds {
            low,
            high,
            cuts: Vec::new(alloc),
            starts: Vec::new(alloc),
            ends: Vec::new(alloc),
            hulls: Vec::new(alloc),
        }
    }

    // All of the numbers.
    fn all(&self) -> Hull {
        Hull {
            start: self.low,
            end: self.high,
        }
    }

    // A part begins at this number.
    fn cut(&mut self, number: i64) -> Result<(), AllocError> {
        if number > self.low && number <= self.high {
            self.cuts.push(number)?;
        }
        Ok(())
    }

    // What a bound leaves of the numbers.
    fn bounded(&mut self, bound: Bound, number: i64) -> Result<Hull, AllocError> {
        let (start, end) = match bound {
            Bound::Below => (self.low, number.saturating_sub(1)),
            Bound::AtMost => (self.low, number),
            Bound::Above => (number.saturating_add(1), self.high),
            Bound::AtLeast => (number, self.high),
        };
        match bound {
            Bound::Below | Bound::AtLeast => self.cut(number)?,
            Bound::AtMost | Bound::Above => self.cut(number.saturating_add(1))?,
        }
        Ok(Hull { start, end })
    }

    // The same of what an expression is; all of them where that is no number.
    fn bounded_by(&mut self, bound: Bound, expr: &Tree) -> Result<Hull, AllocError> {
        match number_of(expr) {
            Some(n) => self.bounded(bound, n),
            None => Ok(self.all()),
        }
    }

    // What a test leaves of the numbers; None where it compares with no number.
    fn tested(&mut self, test: &Test) -> Result<Option<Hull>, AllocError> {
        match test {
            Test::Compares(bound, expr) => {
                let Some(n) = number_of(expr) else {
                    return Ok(None);
                };
                Ok(Some(self.bounded(*bound, n)?))
            }
            Test::Interval(closed_low, low, high, closed_high) => {
                let above = self.bounded_by(low_end(*closed_low), low)?;
                let below = self.bounded_by(high_end(*closed_high), high)?;
                Ok(Some(Hull {
                    start: above.start,
                    end: below.end,
                }))
            }
            Test::Equals(expr) => match bare(expr) {
                Tree::List(members) => self.listed(members),
                _ => self.equal(expr),
            },
        }
    }

    // What being equal to an expression leaves; None where that is no number.
    fn equal(&mut self, expr: &Tree) -> Result<Option<Hull>, AllocError> {
        let Some(n) = number_of(expr) else {
            return Ok(None);
        };
        let above = self.bounded(Bound::AtLeast, n)?;
        let below = self.bounded(Bound::AtMost, n)?;
        Ok(Some(Hull {
            start: above.start,
            end: below.end,
        }))
    }

    // What being equal to one of these leaves; None where none is a number.
    fn listed(&mut self, members: &[Tree]) -> Result<Option<Hull>, AllocError> {
        let mut hull: Option<Hull> = None;
        for member in members {
            let Some(one) = self.equal(member)? else {
                continue;
            };
            hull = match hull {
                Some(all) => Some(Hull {
                    start: all.start.min(one.start),
                    end: all.end.max(one.end),
                }),
                None => Some(one),
            };
        }
        Ok(hull)
    }

    // What one of the tests leaves.
    fn any_tested(&mut self, tests: &[Test]) -> Result<Hull, AllocError> {
        let mut hull = Hull {
            start: self.high,
            end: self.low,
        };
        for test in tests {
            let Some(one) = self.tested(test)? else {
                continue;
            };
            hull.start = hull.start.min(one.start);
            hull.end = hull.end.max(one.end);
            if one.start <= self.high && self.low <= one.end {
                self.starts.push(one.start)?;
                self.ends.push(one.end)?;
            }
        }
        Ok(hull)
    }

    /// Adds what is to be known of a rule whose tests list these numbers, which rise, or bar them.
    pub(crate) fn add_listed(
        &mut self,
        numbers: &[i64],
        is_barred: bool,
    ) -> Result<(), AllocError> {
        let hull = match (numbers.first(), numbers.last()) {
            (Some(first), Some(last)) => Hull {
                start: *first,
                end: *last,
            },
            _ => Hull {
                start: self.high,
                end: self.low,
            },
        };
        let hull = if is_barred { self.all() } else { hull };
        if let Some(middle) = numbers.get(numbers.len() / 2) {
            self.cut(*middle)?;
            self.cut(middle.saturating_add(1))?;
            self.starts.push(*middle)?;
            self.ends.push(*middle)?;
        }
        self.hulls.push(hull)?;
        Ok(())
    }

    /// Adds what is to be known of the tests of a rule.
    pub(crate) fn add(&mut self, tests: &TestsTree) -> Result<(), AllocError> {
        let hull = match tests {
            TestsTree::OneOf(tests) => self.any_tested(tests)?,
            TestsTree::NoneOf(tests) => {
                self.any_tested(tests)?;
                self.all()
            }
            TestsTree::Any => self.all(),
        };
        self.hulls.push(hull)?;
        Ok(())
    }
}
