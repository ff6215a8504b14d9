//! What is found of a decision table: the answers of `dmn_analysis`, and what of them is told.
ghost use Rattle.std.specs.Prelude.{◌≡◌, [], None, Some, true, IfOk, IfSome, OnOk, map, not, ◌||◌, nat_lt, option_map, unwrap_or};
ghost use Rattle.std.specs.List.{All};
ghost use Rattle.std.specs.Option.{is_some};
ghost use Rattle.dmn_table.specs.Parts.{rule_view};
ghost use Rattle.dmn_analysis.specs.Claims.{IsMaskedAmong, TellsGaps, TellsOverlaps};
ghost use Rattle.desk_checking.specs.Answering.{AreAgainst, AreFaults, AskUtf8, IsFound, IsJudged, TellsWords, counts_overlaps, gaps_of_kinds, gaps_of_words, has_order, idle_fail, is_complete, is_empty, is_faulty, is_refused, is_yes, lacks_rules, masks_fail, none_of, outputs_fail, overlaps_fail};
ghost use Rattle.desk_checking.specs.Deciding.{EachCanDecide};
ghost use Rattle.desk_checking.specs.Judged.{with_open, with_place};
ghost use Rattle.desk_checking.specs.Outputs.{HitsGiveSame};

use crate::deciding::find_idle;
use crate::groups::groups_of;
use crate::narrowed::{has_every, narrowed};
use crate::same_outputs::outputs_differ;
use dmn_analysis::{
    Asked, Gaps, Masks, Numbers, Overlap, Overlaps, Texts, every_value, find_gaps, find_masked,
    find_overlaps, hit_in_one_group, kinds_asked, never_met,
};
use dmn_table::{HitPolicy, Rule, Table, has_no_default};
use std::alloc::{AllocError, Global};

/// The most findings of a kind that are told of a table.
pub(crate) const MOST_FINDINGS: usize = 100;

/// The most columns' values that are asked for in the gaps of a table, and in its overlaps; those of one are always.
const MOST_CELLS: usize = 20_000;

/// The most pairs of rules that are looked for under `A`, of which only those are told that give other outputs.
const MOST_PAIRS: usize = 10_000;

/// The most columns' values that are asked for in these.
const MOST_PAIR_CELLS: usize = 200_000;

/// The steps that each search is given.
const STEPS: u64 = 2_000_000;

/// Those of the search for values for which rules decide, which are smaller.
const SMALL_STEPS: u64 = 20_000_000;

/// What is found of a table.
#[derive(Drop)]
pub struct Answers {
    /// The gaps among every value, or among what comes to the table, where that is known.
    pub every: Gaps,
    /// Of each column the kinds of values that are asked in it; or the values that come there, where these are known and not all.
    pub kinds: Vec<Asked>,
    /// Whether it is known what comes to the table.
    pub are_known: bool,
    /// The gaps among these; none where those of every value say it: there is no gap, or the kinds are all.
    pub of_kinds: Option<Gaps>,
    /// The gaps among the words that are asked; none where those of the kinds say it: there is no gap, or the words are all texts.
    pub of_words: Option<Gaps>,
    /// The overlaps, under `U` and `A`.
    pub overlaps: Option<Overlaps>,
    /// Which of these are told, by their places, and what of the others isn't known.
    pub faults: Faults,
    /// The rules that never hit.
    pub never: Vec<usize>,
    /// The masked rules, under `F` and `P`.
    pub masks: Option<Masks>,
    /// Whether it is known, under `A`, that all rules that hit give the same; none where that was not looked for: the table is refused
    /// without.
    pub same: Option<bool>,
    /// The rules of which it isn't known that they can decide; none where these were not looked for: the table is refused without.
    pub idle: Option<Vec<usize>>,
}

/// Which overlaps are against the hit policy.
#[derive(Drop)]
pub struct Faults {
    /// Their places: under `U` each, under `A` where the rules are known to give other outputs.
    pub places: Vec<usize>,
    /// The place of the first of which it isn't known what the rules give.
    pub open: Option<usize>,
}

/// That there is none of what was looked for, of which something was found or not, and all was looked at or not; None where that wasn't
/// decided.
pub(crate) fn none_of(is_some: bool, is_all: bool) -> Option<bool>
    ensures { result ≡ none_of is_some is_all }
{
    if is_some {
        return Some(false);
    }
    if is_all { Some(true) } else { None }
}

/// Whether there are others, or some that are told.
pub(crate) fn has_any<T>(more: usize, found: &[T]) -> bool
    ensures { result ≡ (nat_lt 0 more || not (is_empty found.now)) }
{
    if more > 0 {
        return true;
    }
    !found.is_empty()
}

/// Whether there is none of these gaps; None where that wasn't decided.
pub(crate) fn is_complete(gaps: &Gaps) -> Option<bool>
    ensures { result ≡ is_complete gaps.now }
{
    none_of(has_any(gaps.more, &gaps.found), gaps.is_all)
}

/// The most findings of a kind that are looked for, of so many columns and in so many pieces.
fn most_of(columns: usize, most: usize, cells: usize) -> usize {
    match cells.checked_div(columns) {
        Some(count) => count.min(most).max(1),
        None => most,
    }
}

/// Whether something is left out of the values of some column.
fn leave_out(asked: &[Asked]) -> bool {
    for column in asked {
        let has_all = column.null && column.truths && column.parted;
        if !has_all || !matches!(column.numbers, Numbers::All) {
            return true;
        }
        if !matches!(column.texts, Texts::Utf8 | Texts::All) {
            return true;
        }
    }
    false
}

/// Whether the texts of some column are few.
fn have_words(asked: &[Asked]) -> bool {
    for column in asked {
        if matches!(column.texts, Texts::These(_)) {
            return true;
        }
    }
    false
}

/// The gaps among the kinds that are asked, where these aren't all values and it isn't known that there are none.
fn gaps_among_kinds(
    alloc: Global,
    table: &Table,
    every: &Gaps,
    kinds: &[Asked],
    most: usize,
) -> Result<Option<Gaps>, AllocError>
    ensures { IfOk result (λ found. IfSome found (TellsGaps table.now kinds.now)) }
{
    if is_complete(every) == Some(true) {
        return Ok(None);
    }
    if !leave_out(kinds) {
        return Ok(None);
    }
    let gaps = find_gaps(alloc, table, kinds, most, STEPS)?;
    Ok(Some(gaps))
}

/// The gaps among the words that are asked, where these aren't all texts of their columns, and those of the kinds have some or that isn't
/// known.
fn gaps_among_words(
    alloc: Global,
    table: &Table,
    gaps_of_kinds: &Gaps,
    most: usize,
) -> Result<Option<Gaps>, AllocError>
    ensures { IfOk result (λ found. IfSome found (TellsWords table.now None)) }
{
    if is_complete(gaps_of_kinds) == Some(true) {
        return Ok(None);
    }
    let words = kinds_asked(alloc, table, true)?;
    if !have_words(&words) {
        return Ok(None);
    }
    let gaps = find_gaps(alloc, table, &words, most, STEPS)?;
    Ok(Some(gaps))
}

/// The gaps among the kinds that are asked, where every value comes to some column and it isn't known that there are none.
fn gaps_among_known_kinds(
    alloc: Global,
    table: &Table,
    every: &Gaps,
    comes: &[Asked],
    kinds: &[Asked],
    most: usize,
) -> Result<Option<Gaps>, AllocError>
    ensures { IfOk result (λ found. IfSome found (TellsGaps table.now kinds.now)) }
{
    if !has_every(comes) {
        return Ok(None);
    }
    let gaps = gaps_among_kinds(alloc, table, every, kinds, most)?;
    Ok(gaps)
}

/// The gaps among the words that are asked, where every value comes to some column, and those of the kinds have some or that isn't known.
fn gaps_among_known_words(
    alloc: Global,
    table: &Table,
    comes: &[Asked],
    gaps_of_kinds: &Gaps,
    most: usize,
) -> Result<Option<Gaps>, AllocError>
    ensures { IfOk result (λ found. IfSome found (TellsWords table.now (Some comes.now))) }
{
    if is_complete(gaps_of_kinds) == Some(true) {
        return Ok(None);
    }
    if !has_every(comes) {
        return Ok(None);
    }
    let words = narrowed(alloc, table, comes, true)?;
    if !have_words(&words) {
        return Ok(None);
    }
    let gaps = find_gaps(alloc, table, &words, most, STEPS)?;
    Ok(Some(gaps))
}

/// Of two searches for gaps the narrower one, where there is one.
fn narrower<'a>(every: &'a Gaps, narrow: &'a Option<Gaps>) -> &'a Gaps
    ensures { result.now ≡ unwrap_or narrow.now every.now }
{
    match narrow {
        Some(gaps) => gaps,
        None => every,
    }
}

/// The most overlaps that are looked for, where the hit policy is one under which they count.
fn most_overlaps(policy: HitPolicy, columns: usize) -> Option<usize>
    ensures { is_some result ≡ counts_overlaps policy }
{
    match policy {
        HitPolicy::Unique => Some(most_of(columns, MOST_FINDINGS, MOST_CELLS)),
        HitPolicy::Any => Some(most_of(columns, MOST_PAIRS, MOST_PAIR_CELLS)),
        HitPolicy::Priority
        | HitPolicy::First
        | HitPolicy::OutputOrder
        | HitPolicy::RuleOrder
        | HitPolicy::Collect
        | HitPolicy::Sum
        | HitPolicy::Least
        | HitPolicy::Greatest
        | HitPolicy::Count => None,
    }
}

/// The overlaps, where the hit policy is one under which they count.
fn overlaps_of(alloc: Global, table: &Table, all: &[Asked]) -> Result<Option<Overlaps>, AllocError>
    ensures tells { IfOk result (λ found. IfSome found (TellsOverlaps table.now all.now)) }
    ensures counted { IfOk result (λ found. is_some found ≡ counts_overlaps table.now.policy) }
{
    let Some(most) = most_overlaps(table.policy(), table.inputs().len()) else {
        return Ok(None);
    };
    let overlaps = find_overlaps(alloc, table, all, most, STEPS)?;
    Ok(Some(overlaps))
}

/// Whether it is against the hit policy that these rules overlap; None where that isn't known.
fn is_against(policy: HitPolicy, rules: &[Rule], overlap: &Overlap) -> Option<bool>
    ensures { IsJudged policy (map rule_view rules.now) overlap.now result }
{
    match policy {
        HitPolicy::Any => outputs_differ(rules, overlap.first, overlap.second),
        HitPolicy::Unique => Some(true),
        HitPolicy::Priority
        | HitPolicy::First
        | HitPolicy::OutputOrder
        | HitPolicy::RuleOrder
        | HitPolicy::Collect
        | HitPolicy::Sum
        | HitPolicy::Least
        | HitPolicy::Greatest
        | HitPolicy::Count => Some(true),
    }
}

impl Faults {
    /// None.
    fn none(alloc: Global) -> Faults
        ensures places { result.places.items ≡ [] }
        ensures first { result.«open» ≡ None }
    {
        Faults {
            places: Vec::new(alloc),
            open: None,
        }
    }

    /// Adds the overlap at a place, where it is one, or that isn't known.
    fn add(&mut self, place: usize, answer: Option<bool>) -> Result<(), AllocError>
        ensures places { OnOk result (self.new.places.items ≡ with_place self.old.places.items place answer) }
        ensures first { OnOk result (self.new.«open» ≡ with_open self.old.«open» place answer) }
    {
        match answer {
            Some(true) => {
                self.places.push(place)?;
                Ok(())
            }
            Some(false) => Ok(()),
            None => {
                self.open = self.open.or(Some(place));
                Ok(())
            }
        }
    }
}

/// Which of these overlaps are against the hit policy.
fn faults_among(
    alloc: Global,
    policy: HitPolicy,
    rules: &[Rule],
    found: &[Overlap],
) -> Result<Faults, AllocError>
    ensures { IfOk result (AreAgainst policy (map rule_view rules.now) found.now) }
{
    let mut faults = Faults::none(alloc);
    for place in 0..found.len() {
        let answer = is_against(policy, rules, &found[place]);
        faults.add(place, answer)?;
    }
    Ok(faults)
}

/// Which of the overlaps are against the hit policy.
fn faults_of(
    alloc: Global,
    table: &Table,
    overlaps: &Option<Overlaps>,
) -> Result<Faults, AllocError>
    ensures { IfOk result (AreFaults table.now overlaps.now) }
{
    let Some(overlaps) = overlaps else {
        return Ok(Faults::none(alloc));
    };
    let faults = faults_among(alloc, table.policy(), table.rules(), &overlaps.found)?;
    Ok(faults)
}

/// Whether the hit policy is one under which one of several hits decides.
fn has_order(policy: HitPolicy) -> bool
    ensures { result ≡ has_order policy }
{
    match policy {
        HitPolicy::First => true,
        HitPolicy::Priority => true,
        HitPolicy::Unique
        | HitPolicy::Any
        | HitPolicy::OutputOrder
        | HitPolicy::RuleOrder
        | HitPolicy::Collect
        | HitPolicy::Sum
        | HitPolicy::Least
        | HitPolicy::Greatest
        | HitPolicy::Count => false,
    }
}

/// The masked rules, where the hit policy is one under which one of several hits decides.
fn masks_of(alloc: Global, table: &Table, all: &[Asked]) -> Result<Option<Masks>, AllocError>
    ensures tells { IfOk result (λ found. IfSome found (λ masks. All (λ m. IsMaskedAmong table.now all.now m.rule) masks.found.items)) }
    ensures ordered { IfOk result (λ found. is_some found ≡ has_order table.now.policy) }
{
    if !has_order(table.policy()) {
        return Ok(None);
    }
    let masks = find_masked(alloc, table, all, STEPS)?;
    Ok(Some(masks))
}

/// Whether overlaps are against the hit policy, or that isn't known.
fn overlaps_fail(overlaps: &Option<Overlaps>, faults: &Faults) -> bool
    ensures { result ≡ overlaps_fail overlaps.now faults.now }
{
    let Some(overlaps) = overlaps else {
        return false;
    };
    if faults.open.is_some() {
        return true;
    }
    if overlaps.more > 0 {
        return true;
    }
    if !overlaps.is_all {
        return true;
    }
    !faults.places.is_empty()
}

/// Whether rules are masked, or that isn't known.
fn masks_fail(masks: &Option<Masks>) -> bool
    ensures { result ≡ masks_fail masks.now }
{
    let Some(masks) = masks else {
        return false;
    };
    if !masks.is_all {
        return true;
    }
    !masks.found.is_empty()
}

/// Whether it isn't known that all rules that hit give the same, where that counts.
fn outputs_fail(policy: HitPolicy, same: Option<bool>) -> bool
    ensures { result ≡ outputs_fail policy same }
{
    match policy {
        HitPolicy::Any => !is_yes(same),
        HitPolicy::Unique
        | HitPolicy::Priority
        | HitPolicy::First
        | HitPolicy::OutputOrder
        | HitPolicy::RuleOrder
        | HitPolicy::Collect
        | HitPolicy::Sum
        | HitPolicy::Least
        | HitPolicy::Greatest
        | HitPolicy::Count => false,
    }
}

/// Whether it is known, under `A`, that all rules that hit give the same, of a table that isn't refused without.
fn give_same(
    alloc: Global,
    table: &Table,
    all: &[Asked],
    answers: &Answers,
) -> Result<Option<bool>, AllocError>
    ensures { IfOk result (λ same. same ≡ Some true → HitsGiveSame table.now all.now) }
{
    let HitPolicy::Any = table.policy() else {
        return Ok(None);
    };
    if answers.is_faulty(table) {
        return Ok(None);
    }
    let groups = groups_of(alloc, table.rules())?;
    let same = hit_in_one_group(alloc, table, all, &groups, STEPS)?;
    Ok(Some(same))
}

/// Whether there is a rule of which it isn't known that it can decide, or none was looked at.
fn idle_fail(idle: &Option<Vec<usize>>) -> bool
    ensures { result ≡ idle_fail idle.now }
{
    match idle {
        Some(idle) => !idle.is_empty(),
        None => true,
    }
}

/// The rules of which it isn't known that they can decide, of a table that isn't refused without.
fn idle_of(
    alloc: Global,
    table: &Table,
    answers: &Answers,
) -> Result<Option<Vec<usize>>, AllocError>
    ensures { IfOk result (λ found. IfSome found (λ idle. idle.items ≡ [] → EachCanDecide table.now)) }
{
    if answers.is_faulty(table) {
        return Ok(None);
    }
    if outputs_fail(table.policy(), answers.same) {
        return Ok(None);
    }
    let idle = find_idle(alloc, table, SMALL_STEPS)?;
    Ok(Some(idle))
}

fn is_yes(answer: Option<bool>) -> bool
    ensures { result ≡ is_yes answer }
{
    match answer {
        Some(answer) => answer,
        None => false,
    }
}

impl Answers {
    /// What is found of a table, to which these values come, where that is known.
    pub(crate) fn of(
        alloc: Global,
        table: &Table,
        comes: Option<Vec<Asked>>,
    ) -> Result<Answers, AllocError>
        ensures { IfOk result (IsFound table.now (option_map (λ v. v.items) comes)) }
    {
        let all = every_value(alloc, table)?;
        match comes {
            Some(comes) => {
                let answers = Answers::among_known(alloc, table, &all, comes)?;
                Ok(answers)
            }
            None => {
                let answers = Answers::among_every(alloc, table, &all)?;
                Ok(answers)
            }
        }
    }

    /// What is found of a table of which it isn't known what comes to it. Gaps are looked for among every value, then among the kinds and
    /// the words that are asked, as far as the wider search left that open.
    fn among_every(alloc: Global, table: &Table, all: &[Asked]) -> Result<Answers, AllocError>
        requires { AskUtf8 all.now }
        ensures { IfOk result (IsFound table.now None) }
    {
        let columns = table.inputs().len();
        let most = most_of(columns, MOST_FINDINGS, MOST_CELLS);
        let every = find_gaps(alloc, table, all, most, STEPS)?;
        let kinds = kinds_asked(alloc, table, false)?;
        let overlaps = overlaps_of(alloc, table, all)?;
        let faults = faults_of(alloc, table, &overlaps)?;
        let never = never_met(alloc, table, all)?;
        let masks = masks_of(alloc, table, all)?;
        let of_kinds = gaps_among_kinds(alloc, table, &every, &kinds, most)?;
        let of_words = gaps_among_words(alloc, table, narrower(&every, &of_kinds), most)?;
        let mut answers = Answers {
            every,
            kinds,
            are_known: false,
            of_kinds,
            of_words,
            overlaps,
            faults,
            never,
            masks,
            same: None,
            idle: None,
        };
        let same = give_same(alloc, table, all, &answers)?;
        answers.same = same;
        let idle = idle_of(alloc, table, &answers)?;
        answers.idle = idle;
        Ok(answers)
    }

    /// What is found of a table to which these values come: gaps and overlaps among them, and the rest among every value. Gaps are
    /// looked for among the kinds and the words too where every value comes to a column.
    fn among_known(
        alloc: Global,
        table: &Table,
        all: &[Asked],
        comes: Vec<Asked>,
    ) -> Result<Answers, AllocError>
        requires { AskUtf8 all.now }
        ensures { IfOk result (IsFound table.now (Some comes.items)) }
    {
        let columns = table.inputs().len();
        let most = most_of(columns, MOST_FINDINGS, MOST_CELLS);
        let every = find_gaps(alloc, table, &comes, most, STEPS)?;
        let overlaps = overlaps_of(alloc, table, &comes)?;
        let faults = faults_of(alloc, table, &overlaps)?;
        let never = never_met(alloc, table, all)?;
        let masks = masks_of(alloc, table, all)?;
        let kinds = narrowed(alloc, table, &comes, false)?;
        let of_kinds = gaps_among_known_kinds(alloc, table, &every, &comes, &kinds, most)?;
        let gaps = narrower(&every, &of_kinds);
        let of_words = gaps_among_known_words(alloc, table, &comes, gaps, most)?;
        let mut answers = Answers {
            every,
            kinds,
            are_known: true,
            of_kinds,
            of_words,
            overlaps,
            faults,
            never,
            masks,
            same: None,
            idle: None,
        };
        let same = give_same(alloc, table, &comes, &answers)?;
        answers.same = same;
        let idle = idle_of(alloc, table, &answers)?;
        answers.idle = idle;
        Ok(answers)
    }

    /// Whether a rule hits, whatever the values; None where that wasn't decided.
    pub(crate) fn complete(&self) -> Option<bool>
        ensures { result ≡ is_complete self.now.every }
    {
        is_complete(&self.every)
    }

    /// The gaps among the kinds that are asked.
    pub(crate) fn gaps_of_kinds(&self) -> &Gaps
        ensures { result.now ≡ gaps_of_kinds self.now }
    {
        narrower(&self.every, &self.of_kinds)
    }

    /// The same of values of the kinds that are asked.
    pub(crate) fn complete_for_kinds(&self) -> Option<bool>
        ensures { result ≡ is_complete (gaps_of_kinds self.now) }
    {
        is_complete(self.gaps_of_kinds())
    }

    /// The same where of texts only the words are meant that are asked.
    pub(crate) fn complete_for_words(&self) -> Option<bool>
        ensures { result ≡ is_complete (gaps_of_words self.now) }
    {
        is_complete(narrower(self.gaps_of_kinds(), &self.of_words))
    }

    /// The steps of all searches.
    pub(crate) fn steps(&self) -> u64 {
        let mut steps = self.every.steps;
        if let Some(gaps) = &self.of_kinds {
            steps = steps.saturating_add(gaps.steps);
        }
        if let Some(gaps) = &self.of_words {
            steps = steps.saturating_add(gaps.steps);
        }
        if let Some(overlaps) = &self.overlaps {
            steps = steps.saturating_add(overlaps.steps);
        }
        if let Some(masks) = &self.masks {
            steps = steps.saturating_add(masks.steps);
        }
        steps
    }

    /// Whether values of the kinds that are asked may meet no rule, and there is no default.
    fn lacks_rules(&self, table: &Table) -> bool
        ensures { result ≡ lacks_rules table.now self.now }
    {
        if is_yes(self.complete_for_kinds()) {
            return false;
        }
        has_no_default(table.outputs())
    }

    /// Whether among the kinds that are asked there is a gap and no default, overlaps are against the hit policy, a rule never hits or is
    /// masked, or one of these isn't known.
    fn is_faulty(&self, table: &Table) -> bool
        ensures { result ≡ is_faulty table.now self.now }
    {
        if self.lacks_rules(table) {
            return true;
        }
        if overlaps_fail(&self.overlaps, &self.faults) {
            return true;
        }
        if !self.never.is_empty() {
            return true;
        }
        masks_fail(&self.masks)
    }

    /// Whether `strict` refuses the table: for one of these, or since it isn't known that each rule can decide, or under `A` that all rules
    /// that hit give the same.
    pub(crate) fn are_refused(&self, table: &Table) -> bool
        ensures { result ≡ is_refused table.now self.now }
    {
        if self.is_faulty(table) {
            return true;
        }
        if outputs_fail(table.policy(), self.same) {
            return true;
        }
        idle_fail(&self.idle)
    }
}
