// The twelve tables of a text.
use crate::print::{self, Bytes, Numbers, Values};
use lines::Totals;
use read_text::TextSizes;
use refusals::Refusal;
use std::io::{self, Write};
use write_check::Names;

// They have room for a text of 2,048 bytes, whatever is in it.
#[derive(Drop)]
pub(crate) struct Tables {
    line_starts: [u32; 1025],
    word_starts: [u32; 1025],
    ids: [u32; 1024],
    values: [f64; 1024],
    references: [u32; 1024],
    instance_weights: [f64; 1024],
    label_name_starts: [u32; 33],
    label_names: [u8; 2048],
    attribute_name_starts: [u32; 1025],
    attribute_names: [u8; 2048],
    scale_starts: [u32; 1025],
    scales: [u8; 2048],
}

impl Tables {
    pub(crate) fn new() -> Tables {
        Tables {
            line_starts: [0; 1025],
            word_starts: [0; 1025],
            ids: [0; 1024],
            values: [0.0; 1024],
            references: [0; 1024],
            instance_weights: [0.0; 1024],
            label_name_starts: [0; 33],
            label_names: [0; 2048],
            attribute_name_starts: [0; 1025],
            attribute_names: [0; 2048],
            scale_starts: [0; 1025],
            scales: [0; 2048],
        }
    }

    pub(crate) fn read(&mut self, text: &[u8]) -> Result<TextSizes, Refusal> {
        read_text::read_text(
            text,
            &mut self.line_starts,
            &mut self.word_starts,
            &mut self.ids,
            &mut self.values,
            &mut self.references,
            &mut self.instance_weights,
            &mut self.label_name_starts,
            &mut self.label_names,
            &mut self.attribute_name_starts,
            &mut self.attribute_names,
            &mut self.scale_starts,
            &mut self.scales,
        )
    }

    fn write(&self, sizes: TextSizes, text: &mut [u8]) -> Result<usize, Refusal> {
        write_text::write_text(
            sizes.labels,
            Totals {
                instances: sizes.instances,
                words: sizes.words,
                attributes: sizes.attributes,
            },
            Names {
                attributes: sizes.names,
                label_bytes: sizes.label_bytes,
                attribute_bytes: sizes.name_bytes,
                scale_bytes: sizes.scale_bytes,
            },
            &self.line_starts,
            &self.word_starts,
            &self.ids,
            &self.references,
            &self.label_name_starts,
            &self.label_names,
            &self.attribute_name_starts,
            &self.attribute_names,
            &self.scale_starts,
            &self.scales,
            text,
        )
    }

    // What was read.
    pub(crate) fn print<W: Write>(&self, out: &mut W, sizes: TextSizes) -> io::Result<()> {
        print_sizes(out, sizes)?;
        self.print_corpus(out, sizes)?;
        self.print_strings(out, sizes)
    }

    // The tables that the trainers take.
    fn print_corpus<W: Write>(&self, out: &mut W, sizes: TextSizes) -> io::Result<()> {
        let instances = sizes.instances as usize;
        let words = sizes.words as usize;
        let attributes = sizes.attributes as usize;
        write!(
            out,
            " {} {} {} {} {} {}",
            Numbers(front(&self.line_starts, instances + 1)),
            Numbers(front(&self.word_starts, words + 1)),
            Numbers(front(&self.ids, attributes)),
            Values(front(&self.values, attributes)),
            Numbers(front(&self.references, words)),
            Values(front(&self.instance_weights, instances)),
        )
    }

    // The names and the kept texts.
    fn print_strings<W: Write>(&self, out: &mut W, sizes: TextSizes) -> io::Result<()> {
        write!(
            out,
            " {} {} {} {} {} {}",
            Numbers(front(&self.label_name_starts, sizes.labels as usize + 1)),
            Bytes(front(&self.label_names, sizes.label_bytes as usize)),
            Numbers(front(&self.attribute_name_starts, sizes.names as usize + 1)),
            Bytes(front(&self.attribute_names, sizes.name_bytes as usize)),
            Numbers(front(&self.scale_starts, sizes.attributes as usize + 1)),
            Bytes(front(&self.scales, sizes.scale_bytes as usize)),
        )
    }

    // What the writer makes of tables that were read.
    pub(crate) fn print_written<W: Write>(&self, out: &mut W, sizes: TextSizes) -> io::Result<()> {
        let mut text = [0; 2050];
        match self.write(sizes, &mut text) {
            Ok(length) => write!(out, " {}", Bytes(front(&text, length))),
            Err(why) => print::refused(out, why),
        }
    }
}

fn print_sizes<W: Write>(out: &mut W, sizes: TextSizes) -> io::Result<()> {
    let all = [
        sizes.labels,
        sizes.names,
        sizes.instances,
        sizes.words,
        sizes.attributes,
        sizes.label_bytes,
        sizes.name_bytes,
        sizes.scale_bytes,
    ];
    write!(out, "TEXT {}", Numbers(&all))
}

// The first n entries of a table, which has as many.
fn front<T>(table: &[T], n: usize) -> &[T] {
    table.get(..n).unwrap_or(table)
}
