//! Made bodies of growing size.
use anyhow::{Result, anyhow};
use std::alloc::{AllocError, Global};

/// A body of a function with these parameters, as it is written in a case.
#[derive(Drop)]
pub struct Made {
    pub parameters: String,
    pub trees: String,
}

/// The body of a shape that repeats a part so many times. Of N parts:
/// `straight`: N statements, `1`. `shut`: these and `this`, which has one node. `assigned`: a `var`, and N assignments of it, one behind another. `branches`: a
/// `val`, and N times an `if` that assigns another in both branches. `nested`: N `if`s within one another. `jumps`: N times an `if` that returns. `locals`: N
/// locals. `parameters`: N parameters and one local. `crowded`: 251 locals and N statements `1`.
pub fn shape_of(alloc: Global, shape: &str, count: u32) -> Result<Made> {
    let mut parameters = String::new(alloc);
    let mut trees = String::new(alloc);
    match shape {
        "straight" => repeat(&mut trees, "1 ", count)?,
        "shut" => {
            repeat(&mut trees, "1 ", count)?;
            trees.push_str("this")?;
        }
        "assigned" => {
            trees.push_str("(var x 1) ")?;
            repeat(&mut trees, "(= x (+ x 1)) ", count)?;
        }
        "branches" => {
            trees.push_str("(var x) ")?;
            repeat(&mut trees, "(if true (= x 1) (= x 2)) ", count)?;
        }
        "nested" => {
            repeat(&mut trees, "(if true {", count)?;
            trees.push_str("1")?;
            repeat(&mut trees, "})", count)?;
        }
        "jumps" => repeat(&mut trees, "(if true (return)) ", count)?,
        "locals" => numbered(&mut trees, "(val a", " 1) ", count)?,
        "parameters" => {
            numbered(&mut parameters, "a", " ", count)?;
            trees.push_str("(val x 1)")?;
        }
        "crowded" => {
            numbered(&mut trees, "(val a", ") ", 251)?;
            repeat(&mut trees, "1 ", count)?;
        }
        _ => return Err(anyhow!("no such shape")),
    }
    Ok(Made { parameters, trees })
}

fn repeat(out: &mut String, part: &str, count: u32) -> Result<(), AllocError> {
    for _ in 0..count {
        out.push_str(part)?;
    }
    Ok(())
}

/// Writes a part so many times, each with its number from 0.
fn numbered(out: &mut String, front: &str, back: &str, count: u32) -> Result<(), AllocError> {
    for number in 0..count {
        write!(out, "{front}{number}{back}")?;
    }
    Ok(())
}
