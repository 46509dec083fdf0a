ghost use Rattle.std.specs.Prelude.{◌≡◌, ◌≢◌, ◌++◌, [], ◌∷◌, IfOk, OnOk};
ghost use Rattle.std.specs.List.{flat_map};
ghost use Rattle.conf.specs.Texts.{block_lines, choice_name, number_line, own_lines, text_of, word_line};

use crate::commands::{Command, Form};
use crate::reading::Conf;
use peg_text::{NoMemory, write_decimal};
use std::alloc::Global;

/// Appends a line of a name and a word. Without memory a part of it may have been appended.
fn write_word(out: &mut Vec<u8>, name: &[u8], word: &[u8]) -> Result<(), NoMemory>
    ensures { OnOk result (out.new.items ≡ out.old.items ++ (word_line name.now word.now ++ (10 ∷ []))) }
{
    out.extend_from_slice(name)?;
    out.push(b' ')?;
    out.extend_from_slice(word)?;
    out.push(b'\n')?;
    Ok(())
}

/// Appends a line of a name and a number. Without memory a part of it may have been appended.
fn write_number(alloc: Global, out: &mut Vec<u8>, name: &[u8], number: u64) -> Result<(), NoMemory>
    ensures { OnOk result (out.new.items ≡ out.old.items ++ (number_line name.now number ++ (10 ∷ []))) }
{
    out.extend_from_slice(name)?;
    out.push(b' ')?;
    write_decimal(alloc, out, number)?;
    out.push(b'\n')?;
    Ok(())
}

/// Appends the line of the block length, where the form has blocks.
fn write_block(alloc: Global, out: &mut Vec<u8>, form: Form, block: u32) -> Result<(), NoMemory>
    ensures { OnOk result (out.new.items
        ≡ out.old.items ++ flat_map (λ line. line ++ (10 ∷ [])) (block_lines form block)) }
{
    match form {
        Form::Base => Ok(()),
        Form::Block | Form::Clustered | Form::Diagonal => {
            write_number(alloc, out, b"block", u64::from(block))
        }
    }
}

/// The word for a choice.
fn choice_name(choice: bool) -> &'static [u8]
    ensures { result.now ≡ choice_name choice }
{
    if choice { b"yes" } else { b"no" }
}

/// Appends the lines of the options that only HADI has.
fn write_hadi(alloc: Global, out: &mut Vec<u8>, conf: &Conf) -> Result<(), NoMemory>
    ensures { OnOk result (out.new.items
        ≡ out.old.items ++ flat_map (λ line. line ++ (10 ∷ [])) (own_lines Command.Hadi conf.now)) }
{
    write_number(alloc, out, b"hops", u64::from(conf.hops))?;
    write_number(alloc, out, b"seed", conf.seed)?;
    write_word(out, b"sym", choice_name(conf.sym))
}

/// Appends the lines of the options that only the command has.
fn write_own(alloc: Global, out: &mut Vec<u8>, conf: &Conf) -> Result<(), NoMemory>
    ensures { OnOk result (out.new.items
        ≡ out.old.items ++ flat_map (λ line. line ++ (10 ∷ [])) (own_lines conf.now.command conf.now)) }
{
    match conf.command {
        Command::Plain | Command::Hcc => Ok(()),
        Command::Hadi => write_hadi(alloc, out, conf),
        Command::PageRank => write_number(alloc, out, b"iters", u64::from(conf.iters)),
    }
}

/// The text of a conf, version 1: a line for each thing that the committed bytes depend on.
///
/// `slots`, `spill`, `backup` and the generator of edges change none of these bytes, or are compared as edges, and
/// aren't in it; nor are the options that the command or the form doesn't have. `plain` commits nothing, and has no text.
pub fn conf_text(alloc: Global, conf: &Conf) -> Result<Vec<u8>, NoMemory>
    requires { conf.now.command ≢ Command.Plain }
    ensures { IfOk result (λ text. text.items ≡ text_of conf.now) }
{
    let mut text = Vec::new(alloc);
    write_number(alloc, &mut text, b"pegmine", 1)?;
    write_word(&mut text, b"command", conf.command.name())?;
    write_number(alloc, &mut text, b"nodes", u64::from(conf.nodes))?;
    write_number(alloc, &mut text, b"reducers", u64::from(conf.reducers))?;
    write_number(alloc, &mut text, b"split", conf.split)?;
    write_word(&mut text, b"form", conf.form.name())?;
    write_block(alloc, &mut text, conf.form, conf.block)?;
    write_own(alloc, &mut text, conf)?;
    Ok(text)
}
