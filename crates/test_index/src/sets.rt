//! Indexes of token sets: which numbers hold each token, while sets are put, added, cut and taken.
ghost use Rattle.std.specs.Prelude.{◌≡◌, [], IfOk, length};
ghost use Rattle.test_index.specs.Rows.{HoldsTwo};

use crate::row::put_both;
use lost_index::Index;
use lost_profile::{Token, TokenError, TokenSet, Tokens};
use std::alloc::{AllocError, Global};
use std::fmt::Write;
use std::io;

/// The tokens that are asked for where three numbers are held.
const ASKED: [&str; 12] = [
    "t1", "t2", "T1", "T2", "t4", "t3", "t", "t22", "n2", "n64", "n6", "n65",
];

/// The tokens that are asked for where a number changes its sets.
const ASKED_AGAIN: [&str; 3] = ["t1", "t2", "t3"];

/// Prints which numbers hold each token, of three numbers that are put, and then of two of which one changes.
pub(crate) fn print_all<R: Print + AllocGlobal>(rt: &R) -> io::Result<()> {
    print_three(rt, &mut Index::new(rt.alloc()))?;
    print_two(rt, &mut Index::new(rt.alloc()))
}

/// Puts three numbers: with a set of two tokens, with two sets, and with one of 64.
fn print_three<R: Print + AllocGlobal>(rt: &R, index: &mut Index<Tokens>) -> io::Result<()>
    requires { index.old ≡ [] }
{
    let alloc = rt.alloc();
    index.put(1, one(alloc, "t1 t2")?)?;
    index.put(2, two(alloc, "T1 t2", "t4 t1 1")?)?;
    index.put(3, one_of_many(alloc)?)?;
    print_holders(rt, "three", index, &ASKED)
}

/// Puts two numbers, and changes them.
fn print_two<R: Print + AllocGlobal>(rt: &R, index: &mut Index<Tokens>) -> io::Result<()>
    requires { index.old ≡ [] }
{
    let alloc = rt.alloc();
    put_both(index, one(alloc, "t1 t2")?, two(alloc, "t2", "t4")?)?;
    print_holders(rt, "put", index, &ASKED_AGAIN)?;
    print_changes(rt, index)
}

#[tactic(auto, using(crate::proofs::RowLemmas::first_held, crate::proofs::RowLemmas::still_held, crate::proofs::RowLemmas::two_held, crate::proofs::RowLemmas::second_held))]
/// Changes the first number's set to another by an add and a cut, and takes the second number.
fn print_changes<R: Print + AllocGlobal>(rt: &R, index: &mut Index<Tokens>) -> io::Result<()>
    requires { HoldsTwo index.old }
{
    index.add(1, one(rt.alloc(), "t3")?)?;
    print_holders(rt, "add", index, &ASKED_AGAIN)?;
    index.cut(1, 1, 2);
    print_holders(rt, "cut", index, &ASKED_AGAIN)?;
    index.take(2);
    print_holders(rt, "take", index, &ASKED_AGAIN)
}

/// Prints the numbers that hold each token after a step.
fn print_holders<R: Print + AllocGlobal>(
    rt: &R,
    step: &str,
    index: &Index<Tokens>,
    asked: &[&str],
) -> io::Result<()> {
    for text in asked {
        print!(rt; "{step}, {text}:")?;
        print_found(rt, &index.holding(&token(rt.alloc(), *text)?)?)?;
    }
    Ok(())
}

/// Prints numbers, and ends the line.
pub(crate) fn print_found<R: Print>(rt: &R, numbers: &[u64]) -> io::Result<()> {
    for number in numbers {
        print!(rt; " {number}")?;
    }
    println!(rt; "")
}

/// One set, of the tokens of a text with spaces between them.
fn one(alloc: Global, text: &str) -> io::Result<Vec<TokenSet>>
    ensures { IfOk result (λ regions. length regions.items ≡ 1) }
{
    let mut regions = Vec::new(alloc);
    regions.push(set(alloc, text)?)?;
    Ok(regions)
}

/// One set, of 64 tokens.
fn one_of_many(alloc: Global) -> io::Result<Vec<TokenSet>> {
    let text = sixty_four(alloc)?;
    one(alloc, text.as_str())
}

/// Two sets.
pub(crate) fn two(alloc: Global, text: &str, other: &str) -> io::Result<Vec<TokenSet>>
    ensures { IfOk result (λ regions. length regions.items ≡ 2) }
{
    let mut regions = Vec::new(alloc);
    regions.push(set(alloc, text)?)?;
    regions.push(set(alloc, other)?)?;
    Ok(regions)
}

/// The set of the tokens of a text with spaces between them.
pub(crate) fn set(alloc: Global, text: &str) -> io::Result<TokenSet> {
    let mut tokens = Vec::new(alloc);
    for part in text.split(' ') {
        tokens.push(token(alloc, part)?)?;
    }
    TokenSet::new(alloc, tokens).map_err(refused)
}

/// The token of a text.
pub(crate) fn token(alloc: Global, text: &str) -> io::Result<Token> {
    Token::parse(text.as_bytes()).map_err(refused)
}

/// A text is no token or no set, or memory ran out.
fn refused(fault: TokenError) -> io::Error {
    match fault {
        TokenError::Bad => io::Error::from(io::ErrorKind::InvalidInput),
        TokenError::Memory => io::Error::from(AllocError),
    }
}

/// `t2`, and `n2` to `n64`.
fn sixty_four(alloc: Global) -> io::Result<String> {
    let mut text = String::from_str(alloc, "t2")?;
    for number in 2..65 {
        write!(text, " n{number}")?;
    }
    Ok(text)
}
