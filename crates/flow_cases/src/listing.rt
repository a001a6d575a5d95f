//! How the nodes of a graph are printed, with the statuses of the variables there.
//!
//! A node is called by its tree, its tag and its copy, as `4.Out`; the tree is left out where it is 0, and the copy where it is 0 and the node assumes nothing.
//! A status is one letter: `U` unassigned, `A` assigned, `E` either, `-` unreached; where there are no variables, `+` stands for a node that is reached.
ghost use Rattle.std.specs.Prelude.{◌≡◌, ◌<◌, length};
ghost use Rattle.kt_init.specs.Statuses.{Analyses};

use kt_init::{Init, Status};
use kt_model::graph::{EdgeRow, FlowEffect, Graph, Known, NodeRow, Tag, Variable};
use kt_model::uses::Uses;
use kt_tree::ast::File;
use std::alloc::{AllocError, Global};

/// What the declarations of a file are called, by their numbers: the name, and the number behind it.
#[derive(Drop)]
pub struct LocalNames {
    texts: Vec<String>,
}

impl LocalNames {
    pub fn of(alloc: Global, file: &File, uses: &Uses) -> Result<LocalNames, AllocError> {
        let mut texts = Vec::new(alloc);
        for declaration in uses.declarations() {
            let number = texts.len();
            let name = name_text(file, declaration.name);
            texts.push(format!(in alloc; "{name}{number}")?)?;
        }
        Ok(LocalNames { texts })
    }

    /// Writes what a local is called.
    fn write(&self, out: &mut String, local: u32) -> Result<(), AllocError> {
        match self.texts.get(local as usize) {
            Some(text) => out.push_str(text.as_str()),
            None => out.push_str("?"),
        }
    }

    /// Writes what a variable is called.
    fn write_variable(&self, out: &mut String, variable: Variable) -> Result<(), AllocError> {
        match variable {
            Variable::Local(local) => self.write(out, local),
            Variable::Field(place) => write!(out, "field {place}"),
        }
    }
}

fn name_text(file: &File, name: u32) -> &str {
    if (name as usize) < file.names.len() {
        file.names.text(name)
    } else {
        "?"
    }
}

fn letter(status: Status) -> char {
    match status {
        Status::Unassigned => 'U',
        Status::Assigned => 'A',
        Status::Either => 'E',
        Status::Unreached => '-',
    }
}

/// Writes the statuses of all variables at a node.
fn write_statuses(out: &mut String, graph: &Graph, init: &Init, node: u32) -> Result<(), AllocError>
    requires analysed { Analyses graph.now init.now }
    requires within { node < length graph.now.nodes }
{
    let count = graph.variables.len();
    if count == 0 {
        return out.push(if init.reached(node) { '+' } else { '-' });
    }
    for variable in 0..count {
        if variable <= u32::MAX as usize {
            out.push(letter(init.status(node, variable as u32)))?;
        }
    }
    Ok(())
}

/// Writes what a node is called.
fn write_label(out: &mut String, row: &NodeRow) -> Result<(), AllocError> {
    if row.tree != 0 {
        let tree = row.tree;
        write!(out, "{tree}.")?;
    }
    let tag = row.tag;
    write!(out, "{tag:?}")?;
    let copy = row.copy;
    if copy != 0 || tag == Tag::Assume {
        write!(out, ".{copy}")?;
    }
    Ok(())
}

/// Writes what is known of an assigned value, where anything is.
fn write_known(out: &mut String, names: &LocalNames, known: &Known) -> Result<(), AllocError> {
    match known {
        Known::Literals(literals) => write_count(out, literals.len()),
        Known::CopyOf(local) => {
            out.push_str(" copy of ")?;
            names.write(out, *local)
        }
    }
}

/// Writes how many facts there are, where there is one.
fn write_count(out: &mut String, count: usize) -> Result<(), AllocError> {
    if count > 0 {
        write!(out, " {count} facts")?;
    }
    Ok(())
}

fn write_effect(
    out: &mut String,
    names: &LocalNames,
    effect: &FlowEffect,
) -> Result<(), AllocError> {
    match effect {
        FlowEffect::Read(variable) => {
            out.push_str(" read ")?;
            names.write_variable(out, *variable)
        }
        FlowEffect::Declare(variable) => {
            out.push_str(" declare ")?;
            names.write_variable(out, *variable)
        }
        FlowEffect::Assign(variable, known) => {
            out.push_str(" assign ")?;
            names.write_variable(out, *variable)?;
            write_known(out, names, known)
        }
        FlowEffect::Assume(facts) => {
            out.push_str(" assume")?;
            write_count(out, facts.len())
        }
        FlowEffect::Kill(local) => {
            out.push_str(" kill ")?;
            names.write(out, *local)
        }
    }
}

fn write_effects(
    out: &mut String,
    names: &LocalNames,
    effects: &[FlowEffect],
) -> Result<(), AllocError> {
    for effect in effects {
        write_effect(out, names, effect)?;
    }
    Ok(())
}

/// Writes the nodes to which edges lead from a node, in the order of the edges.
fn write_targets(out: &mut String, edges: &[EdgeRow], node: u32) -> Result<(), AllocError> {
    out.push_str(" ->")?;
    for edge in edges {
        if edge.from == node {
            let to = edge.to;
            write!(out, " {to}")?;
        }
    }
    Ok(())
}

/// Writes a node: its place, what it is called, what it does, where it leads, and the statuses before it.
fn write_node(
    out: &mut String,
    names: &LocalNames,
    graph: &Graph,
    init: &Init,
    node: u32,
) -> Result<(), AllocError>
    requires analysed { Analyses graph.now init.now }
    requires within { node < length graph.now.nodes }
{
    let nodes = graph.nodes.as_slice();
    let row = &nodes[node as usize];
    write!(out, "  {node} ")?;
    write_label(out, row)?;
    write_effects(out, names, row.effects.as_slice())?;
    write_targets(out, graph.edges.as_slice(), node)?;
    out.push_str(" | ")?;
    write_statuses(out, graph, init, node)?;
    out.push('\n')
}

/// Writes all nodes, a line each.
pub fn write_nodes(
    out: &mut String,
    names: &LocalNames,
    graph: &Graph,
    init: &Init,
) -> Result<(), AllocError>
    requires { Analyses graph.now init.now }
{
    for node in 0..graph.nodes.len() {
        if node <= u32::MAX as usize {
            write_node(out, names, graph, init, node as u32)?;
        }
    }
    Ok(())
}

/// Writes what a node is called and the statuses before it.
fn write_place(out: &mut String, graph: &Graph, init: &Init, node: u32) -> Result<(), AllocError>
    requires analysed { Analyses graph.now init.now }
    requires within { node < length graph.now.nodes }
{
    let nodes = graph.nodes.as_slice();
    out.push(' ')?;
    write_label(out, &nodes[node as usize])?;
    out.push(':')?;
    write_statuses(out, graph, init, node)
}

/// Writes the statuses at all nodes, in one line.
pub fn write_places(out: &mut String, graph: &Graph, init: &Init) -> Result<(), AllocError>
    requires { Analyses graph.now init.now }
{
    out.push_str(" ")?;
    for node in 0..graph.nodes.len() {
        if node <= u32::MAX as usize {
            write_place(out, graph, init, node as u32)?;
        }
    }
    out.push('\n')
}

/// Whether the edges stand in the order of the nodes from which they lead.
fn is_by_node(edges: &[EdgeRow]) -> bool {
    let mut last = 0;
    for edge in edges {
        if edge.from < last {
            return false;
        }
        last = edge.from;
    }
    true
}

/// Whether these are the numbers from 0 on.
fn counts_up(order: &[u32]) -> bool {
    order
        .iter()
        .enumerate()
        .all(|(place, number)| place == *number as usize)
}

/// Writes the sizes of a graph, whether its edges stand in the order of its nodes and these in the order of their places, its classes and its variables.
pub fn write_sizes(out: &mut String, names: &LocalNames, graph: &Graph) -> Result<(), AllocError> {
    let nodes = graph.nodes.len();
    let edges = graph.edges.len();
    let by_node = if is_by_node(graph.edges.as_slice()) {
        "by node"
    } else {
        "mixed"
    };
    let order = if counts_up(graph.order.as_slice()) {
        "by place"
    } else {
        "mixed"
    };
    let swept = graph.order.len();
    let targets = graph.targets.len();
    let classes = graph.classes;
    write!(
        out,
        "  nodes {nodes}, edges {edges} {by_node}, order {swept} {order}"
    )?;
    write!(out, ", targets {targets}, classes {classes}, variables")?;
    for variable in graph.variables.as_slice() {
        out.push(' ')?;
        names.write_variable(out, *variable)?;
    }
    out.push('\n')
}
