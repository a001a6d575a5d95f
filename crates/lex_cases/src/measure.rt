//! Made texts, to measure the lexer on.
use crate::cases::source_of;
use anyhow::{Result, anyhow};
use kt_lex::lex;
use std::alloc::{AllocError, Global};

const CODE: &str = "// A bank account, and what may be done with it.
abstract class Account(val owner: String, protected var balance: Int) {
    open fun deposit(amount: Int): Boolean {
        if (amount <= 0 || balance + amount < balance) {
            println(\"${owner} can't deposit $amount\")
            return false
        }
        balance += amount
        return true
    }

    /* The fee depends on the kind of the account. */
    abstract fun fee(months: Int): Int

    override fun toString(): String = \"Account of $owner: ${balance / 100}.${balance % 100}\\n\"
}

fun largest(accounts: List<Account>, limit: Int = 0x7FFF_FFFF): Account? {
    var best: Account? = null
    for (account in accounts) {
        if (account !is Savings && account.balance != limit) continue
        best = if (best == null) account else best?.larger(account) ?: account as? Account
    }
    return best
}

";

/// Lexes a text of at most this many bytes, or only makes it, and prints its size and what was found.
pub fn run(rt: &(impl Print + AllocGlobal), kind: &str, bytes: usize, lexes: bool) -> Result<()> {
    let Some((front, piece, back)) = parts_of(kind) else {
        return Err(anyhow!("no such kind"));
    };
    let text = made(rt.alloc(), front, piece, back, bytes)?;
    let source = source_of(text)?;
    let size = source.text().len();
    if !lexes {
        println!(rt; "{kind}: {size} bytes")?;
        return Ok(());
    }
    match lex(rt.alloc(), &source) {
        Ok(tokens) => {
            let count = tokens.list.len();
            let names = tokens.names.len();
            println!(rt; "{kind}: {size} bytes, {count} tokens, {names} names")?;
        }
        Err(fault) => println!(rt; "{kind}: {size} bytes, {fault}")?,
    }
    Ok(())
}

/// What the text begins with, repeats and ends with.
fn parts_of(kind: &str) -> Option<(&'static str, &'static str, &'static str)> {
    let parts = [
        ("code", "", CODE, ""),
        ("comments", "", "/*", ""),
        ("closed", "/*", "/**/", "*/"),
        ("parts", "", "\"${", ""),
        ("line", "", "a + ", "a"),
        ("identifier", "", "a", ""),
        ("string", "\"", "a", "\""),
        ("names", "", "\u{e4}", ""),
    ];
    for (name, front, piece, back) in parts {
        if name == kind {
            return Some((front, piece, back));
        }
    }
    None
}

/// The text that repeats the piece as often as it fits.
fn made(
    alloc: Global,
    front: &str,
    piece: &str,
    back: &str,
    bytes: usize,
) -> Result<String, AllocError> {
    let mut text = String::from_str(alloc, front)?;
    let room = bytes.saturating_sub(front.len()).saturating_sub(back.len());
    let count = room.checked_div(piece.len()).unwrap_or(0);
    for _ in 0..count {
        text.push_str(piece)?;
    }
    text.push_str(back)?;
    Ok(text)
}
