//! Whether two expressions are the same, part by part. Then they have the same value under the same names.
ghost use Rattle.std.specs.Prelude.{◌≡◌, IsTrue};
ghost use Rattle.feel_value.specs.Comparison.{equal};
ghost use Rattle.feel_value.specs.Logic.{is_yes};
ghost use Rattle.feel_text.specs.View.{view, views};

use feel_text::{Constant, Tree};

/// Whether two literals are the same.
fn are_same_literals(one: &Constant, other: &Constant) -> bool
    ensures { result ≡ is_yes (equal one.now other.now) }
{
    let another = other.value();
    one.value().value().is_equal(another.value())
}

/// Whether two expressions are the same. It goes as deep as they are.
#[cycle(same)]
pub(crate) fn are_same(one: &Tree, other: &Tree) -> bool
    ensures { IsTrue result → view one.now ≡ view other.now }
{
    match one {
        Tree::Constant(one) => match other {
            Tree::Constant(other) => are_same_literals(one, other),
            _ => false,
        },
        Tree::Number(one) => match other {
            Tree::Number(other) => one == other,
            _ => false,
        },
        Tree::Name(one) => match other {
            Tree::Name(other) => one.name.as_str() == other.name.as_str(),
            _ => false,
        },
        Tree::Group(one) => match other {
            Tree::Group(other) => are_same(one, other),
            _ => false,
        },
        Tree::List(one) => match other {
            Tree::List(other) => are_all_same(one, other),
            _ => false,
        },
        Tree::Call(called, one) => match other {
            Tree::Call(another, other) => {
                if called != another {
                    return false;
                }
                are_same(one, other)
            }
            _ => false,
        },
        Tree::Modulo(one, by) => match other {
            Tree::Modulo(other, another) => {
                if !are_same(one, other) {
                    return false;
                }
                are_same(by, another)
            }
            _ => false,
        },
        Tree::Not(one) => match other {
            Tree::Not(other) => are_same(one, other),
            _ => false,
        },
        Tree::Negate(one) => match other {
            Tree::Negate(other) => are_same(one, other),
            _ => false,
        },
        Tree::Path(one, name) => match other {
            Tree::Path(other, another) => {
                if name.as_str() != another.as_str() {
                    return false;
                }
                are_same(one, other)
            }
            _ => false,
        },
        Tree::Binary(sign, one, by) => match other {
            Tree::Binary(another_sign, other, another) => {
                if sign != another_sign {
                    return false;
                }
                if !are_same(one, other) {
                    return false;
                }
                are_same(by, another)
            }
            _ => false,
        },
        Tree::Between(one, low, high) => match other {
            Tree::Between(other, lower, higher) => {
                if !are_same(one, other) {
                    return false;
                }
                if !are_same(low, lower) {
                    return false;
                }
                are_same(high, higher)
            }
            _ => false,
        },
        Tree::If(one, first, second) => match other {
            Tree::If(other, third, fourth) => {
                if !are_same(one, other) {
                    return false;
                }
                if !are_same(first, third) {
                    return false;
                }
                are_same(second, fourth)
            }
            _ => false,
        },
    }
}

/// Whether these are the same expressions, one after another.
#[cycle(same)]
fn are_all_same(ones: &[Tree], others: &[Tree]) -> bool
    ensures { IsTrue result → views ones.now ≡ views others.now }
{
    if ones.len() != others.len() {
        return false;
    }
    for place in 0..ones.len() {
        if !are_same(&ones[place], &others[place]) {
            return false;
        }
    }
    true
}
