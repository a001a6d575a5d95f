//! The answers to the lines of the input.
ghost use Rattle.kt_init.specs.Statuses.{Analyses};

use crate::case_file::{BodyForm, file_of};
use crate::listing::{LocalNames, write_nodes, write_places, write_sizes};
use crate::measure::size_of;
use crate::shapes::shape_of;
use anyhow::{Result, anyhow};
use kt_decl::classes;
use kt_flow::flow;
use kt_graph::{graph, is_too_large};
use kt_init::{Init, analyse, is_graph};
use kt_model::class_table::ClassTable;
use kt_model::finding::{Finding, PhaseFault};
use kt_model::graph::Graph;
use kt_model::uses::{Body, Owner, Uses};
use kt_scope::resolve;
use kt_tree::Span;
use kt_tree::ast::File;
use std::alloc::Global;

/// What of a body is printed.
#[derive(Clone, Copy, Debug)]
enum Question {
    /// Its graph, a node a line.
    Nodes,
    /// The statuses at its nodes, in one line.
    Places,
}

/// The answer to a line, which is empty where it asks for nothing.
pub fn answer(alloc: Global, line: &str) -> Result<String> {
    if line.is_empty() || line.starts_with('#') {
        return Ok(String::new(alloc));
    }
    match line.split_once(' ') {
        Some(("graph", rest)) => of_body(alloc, Question::Nodes, rest),
        Some(("paths", rest)) => of_body(alloc, Question::Places, rest),
        Some(("size", rest)) => of_shape(alloc, rest),
        _ => Err(anyhow!("no such question")),
    }
}

/// What is asked of the body of a function that is written `PARAMETERS : TREES` or `PARAMETERS -> TREE`. Places are counted from behind `:` or `->`.
fn of_body(alloc: Global, question: Question, text: &str) -> Result<String> {
    if let Some((parameters, tree)) = text.split_once("->") {
        let file = file_of(alloc, parameters, BodyForm::Expression, tree)?;
        return of_file(alloc, question, &file, tree);
    }
    match text.split_once(':') {
        Some((parameters, trees)) => {
            let file = file_of(alloc, parameters, BodyForm::Statements, trees)?;
            of_file(alloc, question, &file, trees)
        }
        None => Err(anyhow!("no body")),
    }
}

/// What is asked of the body of the first function of a file.
fn of_file(alloc: Global, question: Question, file: &File, trees: &str) -> Result<String> {
    let Ok(table) = classes(alloc, file) else {
        return Err(anyhow!("no class table"));
    };
    match resolve(alloc, file, &table) {
        Ok(uses) => of_resolved(alloc, question, file, &table, &uses, trees),
        Err(PhaseFault::Findings(found)) => {
            let mut out = String::new(alloc);
            write_findings(&mut out, found.as_slice(), trees)?;
            Ok(out)
        }
        Err(PhaseFault::NoMemory) => Err(anyhow!("no memory")),
    }
}

/// The same, where all names stand for something.
fn of_resolved(
    alloc: Global,
    question: Question,
    file: &File,
    table: &ClassTable,
    uses: &Uses,
    trees: &str,
) -> Result<String> {
    let body = Body {
        file,
        table,
        uses,
        owner: Owner::Function(0),
    };
    if is_too_large(&body) {
        return Err(anyhow!("too large"));
    }
    let names = LocalNames::of(alloc, file, uses)?;
    let mut out = String::new(alloc);
    write_graph(alloc, &mut out, question, &names, &body, trees)?;
    let found = flow(alloc, &body)?.findings;
    write_findings(&mut out, found.as_slice(), trees)?;
    Ok(out)
}

/// Writes what is asked of a body, and its outermost dead trees.
fn write_graph(
    alloc: Global,
    out: &mut String,
    question: Question,
    names: &LocalNames,
    body: &Body<'_>,
    trees: &str,
) -> Result<()> {
    let Ok(graph) = graph(alloc, body) else {
        return Err(anyhow!("no graph"));
    };
    if !is_graph(&graph) {
        return Err(anyhow!("a number is out of range"));
    }
    let init = analyse(alloc, &graph)?;
    write_question(out, question, names, &graph, &init)?;
    write_dead(alloc, out, &graph, &init, body, trees)
}

fn write_question(
    out: &mut String,
    question: Question,
    names: &LocalNames,
    graph: &Graph,
    init: &Init,
) -> Result<()>
    requires { Analyses graph.now init.now }
{
    match question {
        Question::Nodes => {
            write_nodes(out, names, graph, init)?;
            write_sizes(out, names, graph)?;
        }
        Question::Places => write_places(out, graph, init)?,
    }
    Ok(())
}

/// Writes the outermost dead trees, a line each: the number, and the text.
fn write_dead(
    alloc: Global,
    out: &mut String,
    graph: &Graph,
    init: &Init,
    body: &Body<'_>,
    trees: &str,
) -> Result<()>
    requires { Analyses graph.now init.now }
{
    let told = init.dead(alloc, graph, body)?;
    for dead in told.as_slice() {
        let tree = dead.tree;
        let text = text_at(trees, dead.span);
        writeln!(out, "  dead {tree} {text}")?;
    }
    Ok(())
}

/// Writes findings, a line each: the code, the place in bytes from 0, and the text.
fn write_findings(out: &mut String, found: &[Finding], trees: &str) -> Result<()> {
    for finding in found {
        let code = finding.rule.code();
        let start = finding.span.start;
        let text = text_at(trees, finding.span);
        writeln!(out, "  {code} {start} {text}")?;
    }
    Ok(())
}

/// The text at a span.
fn text_at(text: &str, span: Span) -> &str {
    text.get(span.start as usize..span.end as usize)
        .unwrap_or("?")
}

/// The size of a made body, by the words SHAPE COUNT.
fn of_shape(alloc: Global, words: &str) -> Result<String> {
    match words.split_once(' ') {
        Some((shape, count)) => {
            let made = shape_of(alloc, shape, count.parse()?)?;
            size_of(alloc, &made)
        }
        None => Err(anyhow!("no count")),
    }
}
