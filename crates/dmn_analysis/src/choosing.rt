//! Where cells are cut, so that few rules are on both sides. Nothing is promised of it: any cut is a right one.
use crate::bounds::Bounds;
use crate::cell::{Cell, Others, Words};
use crate::cutting::{Cut, Kinds, cut_cell, of_kinds, of_other_kinds};
use crate::halving::middle;
use crate::row::Row;
use crate::rule_on::asked;
use std::alloc::{AllocError, Global};

/// A cut of one of the cells, and how dear it is: the less, the better.
#[derive(Clone, Copy)]
pub(crate) struct Choice {
    pub(crate) place: usize,
    pub(crate) cut: Cut,
    dear: u64,
}

// How dear it is that so many rules are left on the one side, and so many on the other.
fn dear(lower: usize, upper: usize) -> u64 {
    let (lower, upper) = (lower as u64, upper as u64);
    let both = lower.saturating_add(upper);
    both.saturating_mul(2).saturating_add(lower.max(upper))
}

fn better(one: Option<Choice>, other: Choice) -> Option<Choice> {
    match one {
        Some(one) if one.dear <= other.dear => Some(one),
        _ => Some(other),
    }
}

// Whether it is known that each value of the cell meets the entry of a rule at a place, or that none does, as is asked.
fn entry_is_sure(
    words: &Words,
    cell: Cell,
    row: &Row,
    place: usize,
    met: bool,
    steps: &mut u64,
) -> bool {
    let Some(tests) = row.rule().tests.get(place) else {
        return false;
    };
    asked(words, cell, tests, row.listing(place), met, steps)
}

/// The rules that don't hit for all values of the cell at a place, as far as that column goes, and how many do.
#[derive(Drop)]
struct Mixed {
    rules: Vec<usize>,
    met: usize,
}

impl Mixed {
    fn of(
        alloc: Global,
        words: &Words,
        rows: &[Row],
        cell: Cell,
        place: usize,
        left: &[usize],
        steps: &mut u64,
    ) -> Result<Mixed, AllocError> {
        let mut mixed = Mixed {
            rules: Vec::new(alloc),
            met: 0,
        };
        for number in left {
            let Some(row) = rows.get(*number) else {
                continue;
            };
            if entry_is_sure(words, cell, row, place, true, steps) {
                mixed.met = mixed.met.saturating_add(1);
            } else {
                mixed.rules.push(*number)?;
            }
        }
        Ok(mixed)
    }

    // How many rules may hit for values of this cell.
    fn count_in(
        &self,
        words: &Words,
        rows: &[Row],
        cell: Cell,
        place: usize,
        steps: &mut u64,
    ) -> usize {
        let mut count = self.met;
        for number in &self.rules {
            let Some(row) = rows.get(*number) else {
                continue;
            };
            if !entry_is_sure(words, cell, row, place, false, steps) {
                count = count.saturating_add(1);
            }
        }
        count
    }
}

/// None of the kinds.
pub(crate) const NO_KINDS: Kinds = Kinds {
    null: false,
    yes: false,
    no: false,
    numbers: false,
    words: false,
    others: false,
    parted: false,
};

/// Each kind by itself.
pub(crate) const EACH_KIND: [Kinds; 7] = [
    Kinds {
        null: true,
        ..NO_KINDS
    },
    Kinds {
        yes: true,
        ..NO_KINDS
    },
    Kinds {
        no: true,
        ..NO_KINDS
    },
    Kinds {
        parted: true,
        ..NO_KINDS
    },
    Kinds {
        others: true,
        ..NO_KINDS
    },
    Kinds {
        words: true,
        ..NO_KINDS
    },
    Kinds {
        numbers: true,
        ..NO_KINDS
    },
];

fn joined(a: Kinds, b: Kinds) -> Kinds {
    Kinds {
        null: a.null || b.null,
        yes: a.yes || b.yes,
        no: a.no || b.no,
        numbers: a.numbers || b.numbers,
        words: a.words || b.words,
        others: a.others || b.others,
        parted: a.parted || b.parted,
    }
}

/// Whether the cell has no value.
pub(crate) fn is_empty(cell: Cell) -> bool {
    let kinds = cell.null || cell.yes || cell.no || cell.parted;
    !kinds && cell.low > cell.high && cell.from >= cell.to && cell.others == Others::None
}

/// The kinds of a cell: those on which no mixed rule may hit, and whether there are others.
#[derive(Clone, Copy)]
struct Sorted {
    dull: Kinds,
    first: Kinds,
    dull_count: usize,
    count: usize,
}

fn sort_kinds(
    words: &Words,
    rows: &[Row],
    cell: Cell,
    place: usize,
    mixed: &Mixed,
    steps: &mut u64,
) -> Sorted {
    let mut sorted = Sorted {
        dull: NO_KINDS,
        first: NO_KINDS,
        dull_count: 0,
        count: 0,
    };
    for kind in &EACH_KIND {
        let part = of_kinds(cell, *kind);
        if is_empty(part) {
            continue;
        }
        sorted.first = *kind;
        sorted.count = sorted.count.saturating_add(1);
        if mixed.count_in(words, rows, part, place, steps) == mixed.met {
            sorted.dull = joined(sorted.dull, *kind);
            sorted.dull_count = sorted.dull_count.saturating_add(1);
        }
    }
    sorted
}

// The choice to part the kinds of a cell; None where there is but one.
fn kinds_choice(
    words: &Words,
    rows: &[Row],
    cell: Cell,
    place: usize,
    mixed: &Mixed,
    steps: &mut u64,
) -> Option<Choice> {
    let sorted = sort_kinds(words, rows, cell, place, mixed, steps);
    if sorted.count < 2 {
        return None;
    }
    let all = mixed.met.saturating_add(mixed.rules.len());
    if sorted.dull_count > 0 && sorted.dull_count < sorted.count {
        return Some(Choice {
            place,
            cut: Cut::Kinds(sorted.dull),
            dear: dear(mixed.met, all),
        });
    }
    let part = of_kinds(cell, sorted.first);
    let rest = of_other_kinds(cell, sorted.first);
    let lower = mixed.count_in(words, rows, part, place, steps);
    let upper = mixed.count_in(words, rows, rest, place, steps);
    Some(Choice {
        place,
        cut: Cut::Kinds(sorted.first),
        dear: dear(lower, upper),
    })
}

// The cut of the texts of a cell in the middle, of its words or else of the others; None where there is but one word, all others, or
// those between two words alone.
fn texts_cut(cell: Cell) -> Option<Cut> {
    if cell.to.saturating_sub(cell.from) >= 2 {
        return Some(Cut::Word(middle(cell.from, cell.to)));
    }
    match cell.others {
        Others::Between(from, to) if from < to => {
            Some(Cut::Between(middle(from, to).saturating_add(1)))
        }
        Others::None | Others::All | Others::Between(_, _) => None,
    }
}

// The choice to cut the texts of a cell.
fn texts_choice(
    words: &Words,
    rows: &[Row],
    cell: Cell,
    place: usize,
    mixed: &Mixed,
    steps: &mut u64,
) -> Option<Choice> {
    let cut = texts_cut(cell)?;
    let (low, high) = cut_cell(cell, cut)?;
    let lower = mixed.count_in(words, rows, low, place, steps);
    let upper = mixed.count_in(words, rows, high, place, steps);
    Some(Choice {
        place,
        cut,
        dear: dear(lower, upper),
    })
}

fn bounds_of(
    alloc: Global,
    rows: &[Row],
    cell: Cell,
    place: usize,
    mixed: &Mixed,
) -> Result<Bounds, AllocError> {
    let mut bounds = Bounds::new(alloc, cell.low, cell.high);
    for number in &mixed.rules {
        let Some(row) = rows.get(*number) else {
            continue;
        };
        match row.listing(place) {
            Some(listing) => {
                let numbers = listing.numbers_in(cell.low, cell.high);
                bounds.add_listed(numbers, listing.is_barred)?;
            }
            None => {
                if let Some(tests) = row.rule().tests.get(place) {
                    bounds.add(tests.tree())?;
                }
            }
        }
    }
    bounds.cuts.sort_unstable();
    bounds.cuts.dedup();
    bounds.starts.sort_unstable();
    bounds.ends.sort_unstable();
    Ok(bounds)
}

// How many of these numbers, which rise, are below another: at least as many as are known to be.
fn count_below(numbers: &[i64], known: usize, bound: i64) -> usize {
    for place in known..numbers.len() {
        if numbers[place] >= bound {
            return place;
        }
    }
    numbers.len()
}

// The number at which the tests are parted best, each counted by itself, so that lists are cut in their middle.
fn best_number(bounds: &Bounds) -> Option<i64> {
    let mut best: Option<(u64, i64)> = None;
    let mut begun = 0;
    let mut ended = 0;
    for number in &bounds.cuts {
        begun = count_below(&bounds.starts, begun, *number);
        ended = count_below(&bounds.ends, ended, *number);
        let one = dear(begun, bounds.ends.len().saturating_sub(ended));
        best = match best {
            Some((least, _)) if least <= one => best,
            _ => Some((one, *number)),
        };
    }
    let (_, number) = best?;
    Some(number)
}

// The choice to cut the numbers of a cell.
fn numbers_choice(bounds: &Bounds, place: usize, met: usize) -> Option<Choice> {
    let number = best_number(bounds)?;
    let (mut lower, mut upper) = (met, met);
    for hull in &bounds.hulls {
        if hull.start < number {
            lower = lower.saturating_add(1);
        }
        if hull.end >= number {
            upper = upper.saturating_add(1);
        }
    }
    Some(Choice {
        place,
        cut: Cut::Number(number),
        dear: dear(lower, upper),
    })
}

// The best choice in one column; None where all of the rules that are left hit there, or nothing can be cut.
fn choice_in(
    alloc: Global,
    words: &Words,
    rows: &[Row],
    cell: Cell,
    place: usize,
    left: &[usize],
    steps: &mut u64,
) -> Result<Option<Choice>, AllocError> {
    let mixed = Mixed::of(alloc, words, rows, cell, place, left, steps)?;
    if mixed.rules.is_empty() {
        return Ok(None);
    }
    if let Some(choice) = kinds_choice(words, rows, cell, place, &mixed, steps) {
        return Ok(Some(choice));
    }
    if let Some(choice) = texts_choice(words, rows, cell, place, &mixed, steps) {
        return Ok(Some(choice));
    }
    if cell.low >= cell.high {
        return Ok(None);
    }
    let bounds = bounds_of(alloc, rows, cell, place, &mixed)?;
    Ok(numbers_choice(&bounds, place, mixed.met))
}

/// The best choice to cut one of the cells for the rules that are left; None where each of them hits for all values or none is known
/// to part them.
pub(crate) fn choose(
    alloc: Global,
    words: &[Words],
    rows: &[Row],
    cells: &[Cell],
    left: &[usize],
    steps: &mut u64,
) -> Result<Option<Choice>, AllocError> {
    let mut best = None;
    for (place, cell) in cells.iter().enumerate() {
        let Some(words) = words.get(place) else {
            continue;
        };
        if let Some(choice) = choice_in(alloc, words, rows, *cell, place, left, steps)? {
            best = better(best, choice);
        }
    }
    Ok(best)
}
