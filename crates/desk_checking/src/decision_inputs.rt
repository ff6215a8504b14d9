//! What comes to the decision tables of a model, where domains are declared beside it.
ghost use Rattle.std.specs.Prelude.{◌≡◌, ◌++◌, ◌<◌, ℕ, List, None, IfOk, IfSome, OnOk, false, length, map, true};
ghost use Rattle.std.specs.List.{All, slice_get};
ghost use Rattle.std.specs.Str.{is_utf8};
ghost use Rattle.feel_value.specs.Datum.{Datum};
ghost use Rattle.dmn_analysis.specs.Asked.{is_asked, is_asked_text, is_in_utf8};
ghost use Rattle.dmn_ranges.specs.Asking.{AskColumns};
ghost use Rattle.desk_ranges.specs.Gives.{written_name};
ghost use Rattle.desk_checking.specs.Comes.{are_looked_at};
ghost use Rattle.desk_checking.specs.ComesView.{ArePlaces, AreWiderAsked, AsksTable, AsksTableIf, AskUtf8Columns, IsComingBy, place_if};

use dmn_analysis::{Asked, Texts, every_value};
use dmn_form::WrittenService;
use dmn_plan::Plan;
use dmn_ranges::columns_asked;
use dmn_service::Item;
use dmn_table::Table;
use dmn_told::{Coming, Domain, coming_to};
use std::alloc::{AllocError, Global};

/// The most services of which it is looked at what comes from them.
const MOST_SERVICES: usize = 100;

/// How many steps the analysis of the tables takes at most: as many for each of the services.
const STEPS: u64 = 1_000_000;

/// What comes to the tables of decisions.
#[derive(Drop)]
pub(crate) struct DecisionInputs<'a> {
    pub(crate) coming: Coming<'a>,
    /// The place of each decision, in their order.
    pub(crate) places: Vec<usize>,
}

/// Whether it is looked at what comes from these services.
fn are_looked_at(domains: &[Domain], services: &[WrittenService]) -> bool
    ensures { result ≡ are_looked_at domains.now (map written_name services.now) }
{
    if domains.is_empty() {
        return false;
    }
    if services.is_empty() {
        return false;
    }
    services.len() <= MOST_SERVICES
}

/// The names of these services.
fn names_of<'a>(alloc: Global, services: &'a [WrittenService]) -> Result<Vec<&'a str>, AllocError>
    ensures { IfOk result (λ names. map (λ n. n.now) names.items ≡ map written_name services.now) }
{
    let mut names = Vec::with_capacity(alloc, services.len())?;
    for service in services {
        names.push(service.name.as_str())?;
    }
    Ok(names)
}

/// The steps for each of so many services.
fn steps_for_each(services: usize) -> u64 {
    if services == 0 {
        return STEPS;
    }
    STEPS / services as u64
}

/// Adds the place of an item, if it is a decision.
fn add_decision(item: &Item, place: usize, places: &mut Vec<usize>) -> Result<(), AllocError>
    ensures { OnOk result (places.new.items ≡ places.old.items ++ place_if item.now.logic place) }
{
    match &item.logic {
        Some(_) => {
            places.push(place)?;
            Ok(())
        }
        None => Ok(()),
    }
}

/// The places of the decisions among these items.
fn decision_places(alloc: Global, items: &[Item]) -> Result<Vec<usize>, AllocError>
    ensures { IfOk result (λ places. ArePlaces items.now places.items) }
{
    let mut places = Vec::new(alloc);
    for place in 0..items.len() {
        add_decision(&items[place], place, &mut places)?;
    }
    Ok(places)
}

/// All texts, or all in UTF-8 where the tests of the column compare texts by order, since of others that isn't known.
fn all_within(all: &Texts) -> Texts
    ensures { (s : List ℕ) → is_utf8 s ≡ true → is_asked_text result s ≡ true }
{
    match all {
        Texts::Utf8 => Texts::Utf8,
        Texts::None | Texts::These(_) | Texts::All => Texts::All,
    }
}

/// Texts that are asked about, where these are all as above.
fn texts_within(texts: Texts, all: &Texts) -> Texts
    ensures { (s : List ℕ) → is_utf8 s ≡ true → is_asked_text texts s ≡ true → is_asked_text result s ≡ true }
{
    match texts {
        Texts::None => Texts::None,
        Texts::These(texts) => Texts::These(texts),
        Texts::Utf8 => Texts::Utf8,
        Texts::All => all_within(all),
    }
}

/// The values of a column that are asked about, with such texts.
fn asked_within(asked: Asked, all: &Asked) -> Asked
    ensures { (v : Datum) → is_in_utf8 v ≡ true → is_asked asked v ≡ true → is_asked result v ≡ true }
{
    let texts = texts_within(asked.texts, &all.texts);
    Asked {
        null: asked.null,
        truths: asked.truths,
        numbers: asked.numbers,
        texts,
        parted: asked.parted,
    }
}

/// The same of the column of this place.
fn asked_at(asked: Asked, all: &[Asked], place: usize) -> Asked
    ensures { (v : Datum) → is_in_utf8 v ≡ true → is_asked asked v ≡ true → is_asked result v ≡ true }
{
    if place >= all.len() {
        return asked;
    }
    asked_within(asked, &all[place])
}

/// The same of each column.
fn each_within(alloc: Global, asked: Vec<Asked>, all: &[Asked]) -> Result<Vec<Asked>, AllocError>
    ensures { IfOk result (λ within. AreWiderAsked asked.items within.items) }
{
    let mut within = Vec::with_capacity(alloc, asked.len())?;
    for one in asked {
        let place = within.len();
        within.push(asked_at(one, all, place))?;
    }
    Ok(within)
}

impl<'a> DecisionInputs<'a> {
    /// What comes to the tables of the model with this plan from all of its services, where values are as declared. None where nothing is
    /// declared, there is no service, or there are too many.
    pub(crate) fn of(
        alloc: Global,
        plan: &'a Plan,
        services: &[WrittenService],
        domains: &[Domain],
    ) -> Result<Option<DecisionInputs<'a>>, AllocError>
        ensures comes { IfOk result (λ found. IfSome found (IsComingBy plan.now domains.now (map written_name services.now))) }
        ensures unknown { IfOk result (λ found. are_looked_at domains.now (map written_name services.now) ≡ false → found ≡ None) }
    {
        if !are_looked_at(domains, services) {
            return Ok(None);
        }
        let names = names_of(alloc, services)?;
        let steps = steps_for_each(services.len());
        let Some(coming) = coming_to(alloc, plan, &names, domains, steps)? else {
            return Ok(None);
        };
        let places = decision_places(alloc, coming.items)?;
        Ok(Some(DecisionInputs { coming, places }))
    }

    /// What comes to the table of this number in the decision of this index.
    fn asked(
        &self,
        alloc: Global,
        table: &Table,
        decision: usize,
        number: usize,
    ) -> Result<Option<Vec<Asked>>, AllocError>
        ensures { IfOk result (λ found. IfSome found (λ asked. AsksTable self.now decision number asked.items)) }
    {
        let Some(place) = self.places.get(decision) else {
            return Ok(None);
        };
        let Some(told) = self.coming.tables.get(*place) else {
            return Ok(None);
        };
        let Some(tables) = told else {
            return Ok(None);
        };
        let Some(columns) = tables.get(number) else {
            return Ok(None);
        };
        let asked = columns_asked(alloc, columns)?;
        let all = every_value(alloc, table)?;
        let within = each_within(alloc, asked, &all)?;
        Ok(Some(within))
    }
}

/// What comes to the table of this number in the decision of this index, where that is known.
pub(crate) fn asked_of_table(
    alloc: Global,
    inputs: &Option<DecisionInputs>,
    table: &Table,
    decision: usize,
    number: usize,
) -> Result<Option<Vec<Asked>>, AllocError>
    ensures { IfOk result (λ found. IfSome found (λ asked. AsksTableIf inputs.now decision number asked.items)) }
{
    match inputs {
        Some(inputs) => {
            let asked = inputs.asked(alloc, table, decision, number)?;
            Ok(asked)
        }
        None => Ok(None),
    }
}
