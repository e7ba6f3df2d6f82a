//! Writing notes.
ghost use Rattle.std.specs.Prelude.{◌≡◌, ◌++◌, map, IfOk, OnOk};
ghost use Rattle.line_format.specs.Lines.{line_of, with_feed};
ghost use Rattle.outline_rules.specs.Texts.{line_words, text_of};
ghost use Rattle.outline_rules.specs.Working.Writings.{lines_text};
ghost use Rattle.outline_rules.specs.declared.line.NoteLine.TheVariants.{Node, Note};

use crate::notes::{NoteNode, Notes};
use kat_model::NoMemory;
use line_format::{put_form, put_line};
use std::alloc::Global;

fn put_node(alloc: Global, out: &mut Vec<u8>, node: NoteNode) -> Result<(), NoMemory>
    ensures { OnOk result (out.new.items ≡ out.old.items ++ with_feed (line_of (line_words (Node node)))) }
{
    match node {
        NoteNode::False => put_line(out, b"D false"),
        NoteNode::True => put_line(out, b"D true"),
        NoteNode::Branch(test, low, high) => put_form(alloc, out, b"D test", &[test, low, high]),
    }
}

fn put_nodes(alloc: Global, out: &mut Vec<u8>, nodes: &[NoteNode]) -> Result<(), NoMemory>
    ensures { OnOk result (out.new.items ≡ out.old.items ++ lines_text (map Node nodes.now)) }
{
    for node in nodes {
        put_node(alloc, out, *node)?;
    }
    Ok(())
}

fn put_notes(alloc: Global, out: &mut Vec<u8>, notes: &[usize]) -> Result<(), NoMemory>
    ensures { OnOk result (out.new.items ≡ out.old.items ++ lines_text (map Note notes.now)) }
{
    for node in notes {
        put_form(alloc, out, b"C", &[*node])?;
    }
    Ok(())
}

/// Returns the one spelling of notes. Fails only when out of memory.
pub fn write_notes(alloc: Global, notes: &Notes) -> Result<Vec<u8>, NoMemory>
    ensures { IfOk result (λ text. text.items ≡ text_of notes.now) }
{
    let mut out = Vec::new(alloc);
    put_line(&mut out, b"kat 1 outline")?;
    put_nodes(alloc, &mut out, notes.nodes())?;
    put_notes(alloc, &mut out, notes.notes())?;
    put_line(&mut out, b"end")?;
    Ok(out)
}
