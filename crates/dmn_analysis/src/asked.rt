//! What is asked about: of each column the values that it may have.
ghost use Rattle.std.specs.Prelude.{◌≡◌, true};
ghost use Rattle.feel_value.specs.Datum.{Datum};
ghost use Rattle.dmn_analysis.specs.Asked.{is_asked, is_in_utf8};
ghost use Rattle.dmn_analysis.specs.declared.asked.Numbers.TheVariants.{All as AllNumbers};
ghost use Rattle.dmn_analysis.specs.declared.asked.Texts.TheVariants.{All as AllTexts, Utf8};

use std::sync::ArcStr;

/// Which texts a column may have.
#[derive(Drop)]
pub enum Texts {
    None,
    These(Vec<ArcStr>),
    /// Those in UTF-8, as each text of a request is. Of these it can be told how they compare with others by order.
    Utf8,
    /// All, whatever their bytes.
    All,
}

/// Which numbers a column may have.
#[derive(Clone, Copy, Debug, PartialEq, Eq)]
pub enum Numbers {
    None,
    /// Those from one to another, both included.
    Between(i64, i64),
    All,
}

/// The values that a column may have.
#[derive(Drop)]
pub struct Asked {
    /// Whether null is one of them.
    pub null: bool,
    /// Whether true and false are.
    pub truths: bool,
    /// Which numbers are.
    pub numbers: Numbers,
    /// Which texts are.
    pub texts: Texts,
    /// Whether lists and contexts are.
    pub parted: bool,
}

impl Asked {
    /// Every value.
    pub fn every() -> Asked
        ensures asked { (v : Datum) → is_asked result v ≡ true }
        ensures numbers { result.numbers ≡ AllNumbers }
        ensures texts { result.texts ≡ AllTexts }
    {
        Asked {
            null: true,
            truths: true,
            numbers: Numbers::All,
            texts: Texts::All,
            parted: true,
        }
    }

    /// Every value whose texts are in UTF-8, as those of each request are.
    pub fn every_in_utf8() -> Asked
        ensures asked { (v : Datum) → is_in_utf8 v ≡ true → is_asked result v ≡ true }
        ensures numbers { result.numbers ≡ AllNumbers }
        ensures texts { result.texts ≡ Utf8 }
    {
        Asked {
            null: true,
            truths: true,
            numbers: Numbers::All,
            texts: Texts::Utf8,
            parted: true,
        }
    }
}
