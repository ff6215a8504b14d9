//! Which rules a value can't hit, told by the class that it has in its column.
ghost use Rattle.std.specs.Prelude.{◌≡◌, ◌<◌, ℕ, All, List, IfOk, IfSome, IsFalse, IsTrue, true, Some, length, map, slice_get};
ghost use Rattle.std.specs.Int.{bit_at};
ghost use Rattle.feel_text.specs.Classes.{is_in_class};
ghost use Rattle.feel_text.specs.Tests.{Tests as TestsData};
ghost use Rattle.feel_text.specs.declared.class.Class.{Class as ClassData};
ghost use Rattle.feel_value.specs.Datum.{text as text_datum};
ghost use Rattle.feel_value.specs.View.{datum_of};
ghost use Rattle.table_classes.specs.Classes.{AreRowsOf, IsRowOf, IsSieveAt, IsUnsetIn, MissesAt, TellsBlock, TellsBreaking, TellsBlocks, TellsColumn, TellsColumns, TellsRules, TellsUnset};
ghost use Rattle.table_classes.specs.Spans.{AreSpans, IsUnsetAt, Stops};
ghost use Rattle.table_classes.specs.Unbroken.{KeepLimits};

use crate::entries::{HasTests, keep_limits};
use crate::spans::{end_of, set_bits, spans_of, start_of};
use feel_lang::{Class, MARKS, Sieve, Tests, mark as mark_of};
use feel_value::{Feel, Value};
use std::alloc::{AllocError, Global};

/// The most numbers at which the numbers of a column are cut into classes.
const MOST_CUTS: usize = 63;

/// The most numbers of a column that are sorted to find them.
const MOST_SORTED: usize = 4096;

/// The classes of a column before those of texts, but for one for each cut: one more of numbers, null and two of booleans.
const BEFORE_TEXTS: usize = 4;

/// How many rules have their bits in one word.
pub const WORD: usize = 64;

/// The bytes of a class besides its words, and what the heap adds to a block.
const CLASS_BYTES: usize = 64;

/// The least bytes of a rule in a model's text, and of an entry.
const RULE_TEXT: usize = 24;

const ENTRY_TEXT: usize = 4;

/// A class of values of a column, and the rules that they may meet there: a bit for each rule, 64 to a word, of which the first
/// is the lowest. Of a rule whose bit is not set no entry breaks a limit, and the one in this column is met by no value of the
/// class.
#[derive(Drop)]
pub struct ClassRules {
    class: Class,
    words: Vec<u64>,
}

/// The words of 64 rules, one for each class of a column.
#[derive(Drop)]
struct BlockWords {
    words: Vec<u64>,
}

/// The classes of a column: of numbers between the cuts, which rise; of null and of booleans; and of texts by their marks, where
/// enough rules ask for texts. None where they would take too much memory.
#[derive(Drop)]
pub struct ColumnClasses {
    cuts: Vec<i64>,
    rows: Vec<ClassRules>,
}

/// Whether a value that is no text is of a class; false of a text.
fn is_in(class: Class, value: &Value) -> bool
    ensures { IsTrue result → is_in_class class (datum_of value.now) ≡ true }
{
    match (class, value) {
        (Class::Numbers(low, high), Value::Number(n)) => low <= *n && *n <= high,
        (Class::Truth(other), Value::Bool(holds)) => *holds == other,
        (Class::Null, Value::Null) => true,
        _ => false,
    }
}

/// Which values may meet a rule's entry in a column; every value, where it has none.
fn sieve_at(rule: &[Tests], column: usize) -> Sieve
    ensures { IsSieveAt column rule.now result }
{
    match rule.get(column) {
        Some(tests) => tests.sieve(),
        None => Sieve::All,
    }
}

/// Whether no value of the class meets a rule's entry in a column. The entry is asked. False says nothing.
fn misses_entry(rule: &[Tests], column: usize, class: Class) -> bool
    ensures { IsTrue result → MissesAt class column rule.now }
{
    match rule.get(column) {
        Some(tests) => tests.misses(class),
        None => false,
    }
}

/// Sets a rule's bit in the words of the classes a value of which the sieve may let through.
fn mark_sieved(words: &mut [u64], classes: &[Class], sieve: Sieve, bit: usize)
    requires { bit < 64 }
    ensures length { length words.new ≡ length words.old }
    ensures kept { (k i : ℕ) → IsUnsetAt words.new k i → IsUnsetAt words.old k i }
    ensures told { (k : ℕ) (class : ClassData) → slice_get classes.now k ≡ Some class → IsUnsetAt words.new k bit → Stops sieve class }
{
    for k in 0..classes.len().min(words.len()) {
        if sieve.misses(classes[k]) {
            continue;
        }
        words[k] |= 1 << bit;
    }
}

/// The same of the classes a value of which may meet the rule's entry in a column. The entry is asked.
fn mark_asked(words: &mut [u64], classes: &[Class], rule: &[Tests], column: usize, bit: usize)
    requires { bit < 64 }
    ensures length { length words.new ≡ length words.old }
    ensures kept { (k i : ℕ) → IsUnsetAt words.new k i → IsUnsetAt words.old k i }
    ensures told { (k : ℕ) (class : ClassData) → slice_get classes.now k ≡ Some class → IsUnsetAt words.new k bit → MissesAt class column rule.now }
{
    for k in 0..classes.len().min(words.len()) {
        if misses_entry(rule, column, classes[k]) {
            continue;
        }
        words[k] |= 1 << bit;
    }
}

/// The same by the sieve of the entry, which is asked only where the sieve doesn't know. The classes of numbers stand first, so many
/// of them, and rise.
fn mark(
    words: &mut [u64],
    classes: &[Class],
    numbers: usize,
    rule: &[Tests],
    column: usize,
    bit: usize,
)
    requires bit { bit < 64 }
    requires numbers { AreSpans classes.now numbers }
    ensures length { length words.new ≡ length words.old }
    ensures kept { (k i : ℕ) → IsUnsetAt words.new k i → IsUnsetAt words.old k i }
    ensures told { (k : ℕ) (class : ClassData) → slice_get classes.now k ≡ Some class → IsUnsetAt words.new k bit → MissesAt class column rule.now }
{
    let sieve = sieve_at(rule, column);
    match sieve {
        Sieve::Numbers(low, high) => {
            let from = start_of(classes, numbers, low);
            let to = end_of(classes, numbers, high);
            set_bits(words, from, to, bit);
        }
        Sieve::Texts(_) => mark_sieved(words, classes, sieve, bit),
        Sieve::All => set_bits(words, 0, words.len(), bit),
        Sieve::Unknown => mark_asked(words, classes, rule, column, bit),
    }
}

/// So many words, all the same.
fn same_words(alloc: Global, count: usize, word: u64) -> Result<Vec<u64>, AllocError>
    ensures { IfOk result (λ words. (k other : ℕ) → slice_get words.items k ≡ Some other → other ≡ word) }
{
    let mut words = Vec::with_capacity(alloc, count)?;
    for _ in 0..count {
        words.push(word)?;
    }
    Ok(words)
}

/// The bits of the first 64 of these rules an entry of which may break a limit.
fn word_of_breaking<R: HasTests>(rules: &[R]) -> u64
    ensures { TellsUnset KeepLimits (map R.tests_of rules.now) result }
{
    let mut breaking = 0;
    for i in 0..rules.len().min(WORD) {
        if !keep_limits(rules[i].tests()) {
            breaking |= 1 << i;
        }
    }
    breaking
}

/// The bits of the rules an entry of which may break a limit, 64 to a word.
fn words_of_breaking<R: HasTests>(alloc: Global, rules: &[R]) -> Result<Vec<u64>, AllocError>
    ensures { IfOk result (λ words. TellsBreaking (map R.tests_of rules.now) words.items) }
{
    let mut words = Vec::with_capacity(alloc, rules.len() / WORD + 1)?;
    let mut rest = rules;
    while !rest.is_empty() {
        words.push(word_of_breaking(rest))?;
        let (_, others) = rest.split_at(WORD.min(rest.len()));
        rest = others;
    }
    Ok(words)
}

/// The words of the first 64 of these rules, one for each class. An entry of those of the bits `breaking` may break a limit. The
/// classes of numbers stand first, so many of them, and rise.
fn block_words<R: HasTests>(
    alloc: Global,
    rules: &[R],
    breaking: u64,
    column: usize,
    classes: &[Class],
    numbers: usize,
) -> Result<BlockWords, AllocError>
    requires breaking { TellsUnset KeepLimits (map R.tests_of rules.now) breaking }
    requires numbers { AreSpans classes.now numbers }
    ensures { IfOk result (λ block. TellsBlock (map R.tests_of rules.now) column classes.now block.words.items) }
{
    let mut words = same_words(alloc, classes.len(), breaking)?;
    for i in 0..rules.len().min(WORD) {
        mark(&mut words, classes, numbers, rules[i].tests(), column, i);
    }
    Ok(BlockWords { words })
}

/// The words of all rules, one block of them after another: a block is asked about all classes while it is at hand.
fn blocks_of<R: HasTests>(
    alloc: Global,
    rules: &[R],
    breaking: &[u64],
    column: usize,
    classes: &[Class],
    numbers: usize,
) -> Result<Vec<BlockWords>, AllocError>
    requires breaking { TellsBreaking (map R.tests_of rules.now) breaking.now }
    requires numbers { AreSpans classes.now numbers }
    ensures { IfOk result (λ blocks. TellsBlocks (map R.tests_of rules.now) column classes.now blocks.items) }
{
    let mut all = Vec::with_capacity(alloc, breaking.len())?;
    let mut rest = rules;
    for word in breaking {
        all.push(block_words(alloc, rest, *word, column, classes, numbers)?)?;
        let (_, others) = rest.split_at(WORD.min(rest.len()));
        rest = others;
    }
    Ok(all)
}

/// The word of a block at this place; all bits, where there is none.
fn word_at(block: &BlockWords, place: usize) -> u64
    ensures { (i : ℕ) → i < 64 → bit_at result i ≡ 0 → slice_get block.now.words.items place ≡ Some result }
{
    match block.words.get(place) {
        Some(word) => *word,
        None => u64::MAX,
    }
}

/// The rules of the class that stands at this place in the blocks.
fn rules_of(
    alloc: Global,
    blocks: &[BlockWords],
    place: usize,
    class: Class,
) -> Result<ClassRules, AllocError>
    ensures { IfOk result (λ row. (rules : List (List TestsData)) (column : ℕ) (classes : List ClassData) → TellsBlocks rules column classes blocks.now → slice_get classes place ≡ Some class → TellsRules rules column row) }
{
    let mut words = Vec::with_capacity(alloc, blocks.len())?;
    for block in blocks {
        words.push(word_at(block, place))?;
    }
    Ok(ClassRules { class, words })
}

/// The classes of a column with these cuts.
fn classes_of(alloc: Global, cuts: &[i64], has_texts: bool) -> Result<Vec<Class>, AllocError> {
    let mut classes = Vec::new(alloc);
    let mut low = i64::MIN;
    for cut in cuts {
        classes.push(Class::Numbers(low, cut.saturating_sub(1)))?;
        low = *cut;
    }
    classes.push(Class::Numbers(low, i64::MAX))?;
    classes.push(Class::Null)?;
    classes.push(Class::Truth(false))?;
    classes.push(Class::Truth(true))?;
    if has_texts {
        for mark in 0..MARKS {
            classes.push(Class::Texts(mark))?;
        }
    }
    Ok(classes)
}

/// Whether a fourth of the rules or more ask a column for texts.
fn has_texts<R: HasTests>(rules: &[R], column: usize) -> bool {
    let mut count: usize = 0;
    for rule in rules {
        if let Some(tests) = rule.tests().get(column) {
            if tests.ask_for_texts() {
                count = count.saturating_add(1);
            }
        }
    }
    count >= rules.len() / 4 && count > 0
}

/// How many classes of numbers stand first and rise; no class is left where they don't.
fn numbers_first(classes: &mut Vec<Class>) -> usize
    ensures { AreSpans classes.new.items result }
{
    match spans_of(classes) {
        Some(count) => count,
        None => {
            classes.clear();
            0
        }
    }
}

/// The bytes that so many classes of so many rules take.
fn bytes_of(classes: usize, rules: usize) -> usize {
    let words = rules / WORD + 1;
    classes.saturating_mul(CLASS_BYTES.saturating_add(words.saturating_mul(8)))
}

/// At most so many of these numbers, one of each run of as many, at another place in each: so that rules which repeat don't hide
/// what stands between them.
fn spread(alloc: Global, numbers: &[i64], most: usize) -> Result<Vec<i64>, AllocError>
    requires { 0 < most }
{
    let run = numbers.len() / most + 1;
    let mut some = Vec::new(alloc);
    for (i, number) in numbers.iter().enumerate() {
        if i % run == i / run % run {
            some.push(*number)?;
        }
    }
    Ok(some)
}

/// Numbers at which what the rules ask of a column changes, rising; not all of them where there are many.
fn cuts_of<R: HasTests>(alloc: Global, rules: &[R], column: usize) -> Result<Vec<i64>, AllocError> {
    let mut all = Vec::new(alloc);
    for rule in rules {
        if let Some(tests) = rule.tests().get(column) {
            tests.cuts(&mut all)?;
        }
    }
    let mut some = spread(alloc, &all, MOST_SORTED)?;
    some.sort_unstable();
    some.dedup();
    spread(alloc, &some, MOST_CUTS)
}

/// The classes with their rules, from the words of the blocks.
fn rows_from(
    alloc: Global,
    blocks: &[BlockWords],
    classes: &[Class],
) -> Result<Vec<ClassRules>, AllocError>
    ensures { IfOk result (λ rows. (rules : List (List TestsData)) (column : ℕ) → TellsBlocks rules column classes.now blocks.now → All (TellsRules rules column) rows.items) }
{
    let mut rows = Vec::with_capacity(alloc, classes.len())?;
    for place in 0..classes.len() {
        rows.push(rules_of(alloc, blocks, place, classes[place])?)?;
    }
    Ok(rows)
}

impl ColumnClasses {
    /// The classes of a column of these rules; none where they would take more than so many bytes.
    fn of<R: HasTests>(
        alloc: Global,
        rules: &[R],
        breaking: &[u64],
        column: usize,
        room: usize,
    ) -> Result<ColumnClasses, AllocError>
        requires { TellsBreaking (map R.tests_of rules.now) breaking.now }
        ensures { IfOk result (TellsColumn (map R.tests_of rules.now) column) }
    {
        let cuts = cuts_of(alloc, rules, column)?;
        let mut classes = classes_of(alloc, &cuts, has_texts(rules, column))?;
        if bytes_of(classes.len(), rules.len()) > room {
            classes.clear();
        }
        let numbers = numbers_first(&mut classes);
        let blocks = blocks_of(alloc, rules, breaking, column, &classes, numbers)?;
        let rows = rows_from(alloc, &blocks, &classes)?;
        Ok(ColumnClasses { cuts, rows })
    }

    /// Where the class of a value that is no text stands among the classes.
    fn place_of(&self, value: &Value) -> usize {
        let others = self.cuts.len() + 1;
        match value {
            Value::Number(n) => self.cuts.partition_point(|cut| *cut <= *n),
            Value::Null => others,
            Value::Bool(holds) => others + 1 + usize::from(*holds),
            Value::Text(_) | Value::List(_) | Value::Context(_) => usize::MAX,
        }
    }

    /// The class of a text with its rules; none where the column has no classes of texts. The mark of the text is worked out
    /// where it has some.
    fn row_of_text(&self, text: &str) -> Option<&ClassRules>
        ensures { IfSome result (λ row. (rules : List (List TestsData)) (column : ℕ) → TellsColumn rules column self.now → IsRowOf rules column (text_datum text.now) row.now) }
    {
        let first = self.cuts.len() + BEFORE_TEXTS;
        if self.rows.len() <= first {
            return None;
        }
        let mark = mark_of(text);
        let row = self.rows.get(first + usize::from(mark))?;
        match row.class {
            Class::Texts(other) if other == mark => Some(row),
            _ => None,
        }
    }

    /// The class of a value with its rules; none of a list or a context.
    fn row_of(&self, value: &Value) -> Option<&ClassRules>
        ensures { IfSome result (λ row. (rules : List (List TestsData)) (column : ℕ) → TellsColumn rules column self.now → IsRowOf rules column (datum_of value.now) row.now) }
    {
        if let Value::Text(text) = value {
            return self.row_of_text(text.as_str());
        }
        let row = self.rows.get(self.place_of(value))?;
        if is_in(row.class, value) {
            return Some(row);
        }
        None
    }
}

/// The classes of each of so many columns. Together they take at most eight times the bytes that the least text of so many rules
/// and entries has.
pub fn classes_of_columns<R: HasTests>(
    alloc: Global,
    rules: &[R],
    count: usize,
) -> Result<Vec<ColumnClasses>, AllocError>
    ensures { IfOk result (λ columns. TellsColumns (map R.tests_of rules.now) columns.items) }
{
    let text = count.saturating_mul(ENTRY_TEXT).saturating_add(RULE_TEXT);
    let mut room = rules.len().saturating_mul(text).saturating_mul(8);
    let breaking = words_of_breaking(alloc, rules)?;
    let mut columns = Vec::with_capacity(alloc, count)?;
    for column in 0..count {
        let classes = ColumnClasses::of(alloc, rules, &breaking, column, room)?;
        room = room.saturating_sub(bytes_of(classes.rows.len(), rules.len()));
        columns.push(classes)?;
    }
    Ok(columns)
}

/// Of each column the class of its value, with its rules; None where it is of no class.
pub fn rows_of<'a>(
    alloc: Global,
    columns: &'a [ColumnClasses],
    values: &[Feel],
) -> Result<Vec<Option<&'a ClassRules>>, AllocError>
    ensures { IfOk result (λ rows. (rules : List (List TestsData)) → TellsColumns rules columns.now → AreRowsOf rules values.now rows.items) }
{
    let mut rows = Vec::with_capacity(alloc, columns.len())?;
    for k in 0..columns.len().min(values.len()) {
        rows.push(columns[k].row_of(values[k].value()))?;
    }
    Ok(rows)
}

/// The bits of the rules of a word that each value may hit.
pub fn common(rows: &[Option<&ClassRules>], place: usize) -> u64
    ensures { (i : ℕ) → i < 64 → bit_at result i ≡ 0 → IsUnsetIn rows.now place i }
{
    let mut word = u64::MAX;
    for row in rows {
        if word == 0 {
            break;
        }
        if let Some(row) = row {
            if let Some(bits) = row.words.get(place) {
                word &= *bits;
            }
        }
    }
    word
}
