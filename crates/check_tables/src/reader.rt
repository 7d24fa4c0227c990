//! The words of a row as a function.

use crate::lists::{args, labels, packs, types};
use crate::words::{arg, bin_op, cast_op, label, name, number, predicate, small_number};
use anyhow::bail;
use arith_word::{Label, List, Text};
use mlir_ir::{Arg, Body, Flags, ForParts, Func, IrType, Item, Kind, Op, Pack, Region, WhileParts};
use sqlite_items::Items;
use std::alloc::Global;

/// How many items of a function, or operations of an item or a region, a row may write out.
const MAX_PARTS: u32 = 64;

/// How many lists of operations may be open at once.
const MAX_DEPTH: u32 = 16;

/// What is left of the words of a row.
#[derive(Debug, Drop)]
pub struct Reader<'a> {
    words: &'a [&'a str],
    /// The number of the repetition of the item or the operation.
    turn: u64,
}

impl<'a> Reader<'a> {
    /// The row with these words.
    pub fn new(words: &'a [&'a str]) -> Reader<'a> {
        Reader { words, turn: 0 }
    }

    /// Takes the next word.
    fn word(&mut self) -> anyhow::Result<&'a str> {
        match self.words {
            [] => bail!("the row ends too early"),
            [word, rest @ ..] => {
                self.words = rest;
                Ok(*word)
            }
        }
    }

    /// Whether the next word is this one, which it then takes.
    fn takes(&mut self, word: &str) -> bool {
        match self.words {
            [next, rest @ ..] if *next == word => {
                self.words = rest;
                true
            }
            _ => false,
        }
    }

    fn expect(&mut self, word: &str) -> anyhow::Result<()> {
        if !self.takes(word) {
            bail!("`{word}` is missing");
        }
        Ok(())
    }

    /// How often what stands next is repeated.
    fn repetitions(&mut self) -> anyhow::Result<u64> {
        let [word, rest @ ..] = self.words else {
            return Ok(1);
        };
        match word.strip_suffix('*') {
            Some(count) => {
                self.words = rest;
                number(count)
            }
            None => Ok(1),
        }
    }

    fn label(&mut self) -> anyhow::Result<Label> {
        label(self.word()?)
    }

    fn labels(&mut self, alloc: Global) -> anyhow::Result<List<Label>> {
        labels(alloc, self.word()?)
    }

    fn args(&mut self, alloc: Global) -> anyhow::Result<List<Arg>> {
        args(alloc, self.word()?, self.turn)
    }

    fn types(&mut self, alloc: Global) -> anyhow::Result<List<IrType>> {
        types(alloc, self.word()?)
    }

    fn flags(&mut self) -> Flags {
        let nsw = self.takes("nsw");
        let nuw = self.takes("nuw");
        Flags { nsw, nuw }
    }

    /// An operation on words, by its name.
    fn word_operation(&mut self, name: &str) -> anyhow::Result<Kind> {
        let flags = self.flags();
        if let Some(op) = bin_op(name) {
            return Ok(Kind::Bin(op, flags, self.label()?, self.label()?));
        }
        match cast_op(name) {
            Some(op) => Ok(Kind::Cast(op, flags, self.label()?)),
            None => bail!("no operation: `{name}`"),
        }
    }

    /// An operation without regions, by its name.
    fn plain(&mut self, alloc: Global, name: &str) -> anyhow::Result<Kind> {
        match name {
            "const" => Ok(Kind::Const(number(self.word()?)?)),
            "cmpi" => {
                let pred = predicate(self.word()?)?;
                Ok(Kind::Cmp(pred, self.label()?, self.label()?))
            }
            "select" => Ok(Kind::Select(self.label()?, self.label()?, self.label()?)),
            "call" => Ok(Kind::Call(0, self.labels(alloc)?)),
            _ => self.word_operation(name),
        }
    }

    /// The names and the types of an operation's results.
    fn results(&mut self, alloc: Global) -> anyhow::Result<(List<Pack>, List<IrType>)> {
        match self.words {
            [names, bits, sign, rest @ ..] if *sign == "=" => {
                self.words = rest;
                Ok((packs(alloc, names, self.turn)?, types(alloc, bits)?))
            }
            _ => Ok((
                List::from_vec(Vec::new(alloc)),
                List::from_vec(Vec::new(alloc)),
            )),
        }
    }

    #[cycle(operations)]
    fn region(&mut self, alloc: Global, depth: u32) -> anyhow::Result<Region> {
        self.expect("{")?;
        let ops = self.ops(alloc, "yield", depth)?;
        let ends = self.labels(alloc)?;
        self.expect("}")?;
        Ok(Region {
            ops: Items::from_vec(ops),
            ends,
        })
    }

    /// An `scf.if` behind its name.
    #[cycle(operations)]
    fn branch(&mut self, alloc: Global, depth: u32) -> anyhow::Result<Kind> {
        let cond = self.label()?;
        let first = self.region(alloc, depth)?;
        let other = if self.takes("else") {
            Some(self.region(alloc, depth)?)
        } else {
            None
        };
        Ok(Kind::If(cond, first, other))
    }

    /// An `scf.for` behind its name.
    #[cycle(operations)]
    fn counted_loop(&mut self, alloc: Global, depth: u32) -> anyhow::Result<Kind> {
        Ok(Kind::For(ForParts {
            lower: self.label()?,
            upper: self.label()?,
            step: self.label()?,
            iv: arg(alloc, self.word()?, self.turn)?,
            args: self.args(alloc)?,
            inits: self.labels(alloc)?,
            body: self.region(alloc, depth)?,
        }))
    }

    /// An `scf.while` behind its name.
    #[cycle(operations)]
    fn while_loop(&mut self, alloc: Global, depth: u32) -> anyhow::Result<Kind> {
        let args = self.args(alloc)?;
        let inits = self.labels(alloc)?;
        self.expect("{")?;
        let ops = self.ops(alloc, "condition", depth)?;
        let cond = self.label()?;
        let ends = self.labels(alloc)?;
        self.expect("}")?;
        self.expect("do")?;
        Ok(Kind::While(WhileParts {
            args,
            inits,
            before: Region {
                ops: Items::from_vec(ops),
                ends,
            },
            cond,
            after_args: self.args(alloc)?,
            after: self.region(alloc, depth)?,
        }))
    }

    #[cycle(operations)]
    fn op(&mut self, alloc: Global, depth: u32) -> anyhow::Result<Op> {
        let (packs, results) = self.results(alloc)?;
        let kind = match self.word()? {
            "if" => self.branch(alloc, depth)?,
            "for" => self.counted_loop(alloc, depth)?,
            "while" => self.while_loop(alloc, depth)?,
            name => self.plain(alloc, name)?,
        };
        Ok(Op {
            packs,
            results,
            kind,
        })
    }

    /// The operations before the word, which it takes too; so many lists of them may be open in here.
    #[cycle(operations)]
    fn ops(&mut self, alloc: Global, end: &str, depth: u32) -> anyhow::Result<Vec<Op>> {
        if depth == 0 {
            bail!("too many regions in regions");
        }
        let mut ops = Vec::new(alloc);
        for _ in 0..MAX_PARTS {
            if self.takes(end) {
                return Ok(ops);
            }
            let count = self.repetitions()?;
            let (start, outer) = (self.words, self.turn);
            for turn in 0..count {
                self.words = start;
                self.turn = if count == 1 { outer } else { turn };
                ops.push(self.op(alloc, depth - 1)?)?;
            }
            self.turn = outer;
        }
        bail!("more than {MAX_PARTS} operations before `{end}`")
    }

    fn item(&mut self, alloc: Global) -> anyhow::Result<Item> {
        self.expect("{")?;
        let ops = self.ops(alloc, "}", MAX_DEPTH)?;
        Ok(Item {
            ops: Items::from_vec(ops),
        })
    }

    fn body(&mut self, alloc: Global) -> anyhow::Result<Body> {
        let mut items = Vec::new(alloc);
        for _ in 0..MAX_PARTS {
            if self.takes("return") {
                let ret = self.labels(alloc)?;
                return Ok(Body {
                    items: List::from_vec(items),
                    ret,
                });
            }
            let count = self.repetitions()?;
            let (start, outer) = (self.words, self.turn);
            for turn in 0..count {
                self.words = start;
                self.turn = if count == 1 { outer } else { turn };
                items.push(self.item(alloc)?)?;
            }
            self.turn = outer;
        }
        bail!("more than {MAX_PARTS} items")
    }

    /// A function's index, where one stands next.
    fn index(&mut self) -> anyhow::Result<u8> {
        match self.words {
            [word, rest @ ..] if word.starts_with(|c: char| c.is_ascii_digit()) => {
                self.words = rest;
                small_number(word)
            }
            _ => Ok(0),
        }
    }

    fn func_name(&mut self, alloc: Global) -> anyhow::Result<Text> {
        let word = self.word()?;
        match word.strip_prefix('@') {
            Some(word) => name(alloc, word, 0),
            None => bail!("no name of a function: `{word}`"),
        }
    }

    /// The function that the row describes.
    pub fn row(&mut self, alloc: Global) -> anyhow::Result<Func> {
        let index = self.index()?;
        let private = self.takes("private");
        let name = self.func_name(alloc)?;
        let args = self.args(alloc)?;
        self.expect("->")?;
        let results = self.types(alloc)?;
        let body = if self.words.is_empty() {
            None
        } else {
            Some(self.body(alloc)?)
        };
        if !self.words.is_empty() {
            bail!("words behind the row");
        }
        Ok(Func {
            index,
            name,
            private,
            args,
            results,
            body,
        })
    }
}
