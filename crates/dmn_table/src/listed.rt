//! The listed values of the output columns, and the places of values among them.
ghost use Rattle.std.specs.Prelude.{◌≡◌, ℤ, ℕ, List, OnOk, IfOk, map, bytes_eq};
ghost use Rattle.std.specs.Ordering.{int_cmp, is_eq};
ghost use Rattle.std.specs.BTreeMap.{get, get_by_text};
ghost use Rattle.dmn_table.specs.Listed.{IsIndex, PutsFirst, first_of, place_if};
ghost use Rattle.dmn_table.specs.Priority.{place as place_of, listed_place as listed_place_of, listed_places as listed_places_of, listed_values};
ghost use Rattle.dmn_table.specs.Parts.{column_view};

use crate::table::Output;
use feel_value::{Feel, Truth, Value, equal};
use std::alloc::{AllocError, Global};
use std::collections::BTreeMap;
use std::marker::Model;

/// So many listed values, and so many hits, are too few for an index.
const FEW: usize = 64;

/// The first place of each number and of each text among listed values.
#[derive(Drop)]
struct Index {
    numbers: BTreeMap<i64, usize>,
    texts: BTreeMap<String, usize>,
}

/// Puts in a number with its place, unless the number is there.
fn put_number(
    numbers: &mut BTreeMap<i64, usize>,
    number: i64,
    place: usize,
) -> Result<(), AllocError>
    ensures { OnOk result ((other : ℤ) → get int_cmp numbers.new other ≡ first_of (get int_cmp numbers.old other) (place_if (is_eq (int_cmp number other)) place)) }
{
    if !numbers.contains_key(&number) {
        numbers.insert(number, place)?;
    }
    Ok(())
}

/// Puts in a text with its place, unless the text is there.
fn put_text(
    alloc: Global,
    texts: &mut BTreeMap<String, usize>,
    text: &str,
    place: usize,
) -> Result<(), AllocError>
    ensures { OnOk result ((other : List ℕ) → get_by_text texts.new other ≡ first_of (get_by_text texts.old other) (place_if (bytes_eq text.now other) place)) }
{
    if !texts.contains_key(text) {
        let key = String::from_str(alloc, text)?;
        texts.insert(key, place)?;
    }
    Ok(())
}

impl Index {
    /// The index of these values: of equal ones it has the first.
    #[inline(never)]
    fn of(alloc: Global, values: &[Feel]) -> Result<Index, AllocError>
        ensures { IfOk result (λ index. IsIndex index values.now) }
    {
        let mut index = Index {
            numbers: BTreeMap::new(alloc),
            texts: BTreeMap::new(alloc),
        };
        for (place, value) in values.iter().enumerate() {
            index.put(alloc, value, place)?;
        }
        Ok(index)
    }

    /// Puts in a value with its place, unless it is there.
    fn put(&mut self, alloc: Global, value: &Feel, place: usize) -> Result<(), AllocError>
        ensures { OnOk result (PutsFirst self.old self.new value.now place) }
    {
        match value.value() {
            Value::Number(number) => put_number(&mut self.numbers, *number, place),
            Value::Text(text) => put_text(alloc, &mut self.texts, text.as_str(), place),
            _ => Ok(()),
        }
    }
}

/// The listed values of an output column, with an index where one pays.
#[derive(Drop)]
pub struct Listed<'a> {
    values: &'a [Feel],
    index: Option<Index>,
}

impl<'a> Model for Listed<'a> {
    ghost use Rattle.std.specs.Prelude.{List};
    ghost use Rattle.std.specs.Coded.{coded_list};
    ghost use Rattle.std.specs.Option.{IfSome};
    ghost use Rattle.feel_value.specs.Code.{datum_code};
    ghost use Rattle.feel_value.specs.Datum.{Datum};

    ghost Value = { List Datum };

    ghost coded = { coded_list datum_code };

    ghost use Rattle.dmn_table.specs.Listed.{IsIndex};

    ghost view = { λ l. l.values.now };

    ghost invariant = { λ l. IfSome l.index (λ index. IsIndex index l.values.now) };
}

impl<'a> Listed<'a> {
    /// The listed values of a column, where so many rules hit.
    fn of(alloc: Global, values: &'a [Feel], hits: usize) -> Result<Listed<'a>, AllocError>
        ensures { IfOk result (λ listed. listed ≡ values.now) }
    {
        let mut index = None;
        if hits > FEW && values.len() > FEW {
            index = Some(Index::of(alloc, values)?);
        }
        Ok(Listed { values, index })
    }

    /// The position of the first listed value that equals the value; the length of the list where none does.
    pub(crate) fn place(&self, value: &Feel) -> usize
        ensures { result ≡ place_of self.now value.now }
    {
        let Some(index) = &self.index else {
            return place_along(self.values, value);
        };
        match value.value() {
            Value::Number(number) => {
                let place = index.numbers.get(number).copied();
                place.unwrap_or(self.values.len())
            }
            Value::Text(text) => {
                let place = index.texts.get(text.as_str()).copied();
                place.unwrap_or(self.values.len())
            }
            _ => place_along(self.values, value),
        }
    }

    /// The position, from 1 on, of the first listed value that equals the value; None where none does.
    pub fn listed_place(&self, value: &Feel) -> Option<usize>
        ensures { result ≡ listed_place_of self.now value.now }
    {
        let place = self.place(value);
        if place < self.values.len() {
            Some(place + 1)
        } else {
            None
        }
    }
}

/// The place that is found by comparing the value with each listed one in turn.
fn place_along(listed: &[Feel], value: &Feel) -> usize
    ensures { result ≡ place_of listed.now value.now }
{
    for (i, other) in listed.iter().enumerate() {
        if equal(other, value) == Truth::Yes {
            return i;
        }
    }
    listed.len()
}

/// The listed values of each column, where so many rules hit: the more there are, the more an index pays.
pub fn lists_of<'a>(
    alloc: Global,
    outputs: &'a [Output],
    hits: usize,
) -> Result<Vec<Listed<'a>>, AllocError>
    ensures { IfOk result (λ lists. lists.items ≡ listed_values (map column_view outputs.now)) }
{
    let mut lists = Vec::with_capacity(alloc, outputs.len())?;
    for output in outputs {
        lists.push(Listed::of(alloc, &output.values, hits)?)?;
    }
    Ok(lists)
}

/// Of each value its place in the list of its column, from 1 on; None where it equals none of the list.
pub fn listed_places(
    alloc: Global,
    lists: &[Listed],
    values: &[Feel],
) -> Result<Vec<Option<usize>>, AllocError>
    ensures { IfOk result (λ places. places.items ≡ listed_places_of lists.now values.now) }
{
    let mut places = Vec::with_capacity(alloc, values.len())?;
    for (listed, value) in lists.iter().zip(values) {
        places.push(listed.listed_place(value))?;
    }
    Ok(places)
}
