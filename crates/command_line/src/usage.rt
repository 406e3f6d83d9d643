//! What a command takes, as data, and `clap`'s command of it.

ghost use Rattle.std.specs.Prelude.{◌≡◌, IfOk, false};
ghost use Rattle.clap.specs.Words.{app_of, rule_of};
ghost use Rattle.clap.specs.declared.builder.Command.TheViews.{out-Command as fields_of};
ghost use Rattle.command_line.specs.Usages.{app_of_usage, rule_of_parameter, with_usages};

use clap::builder::ValueParser;
use clap::{Arg, ArgAction, Command};
use std::alloc::{AllocError, Global};

/// How a parameter is written on the line.
#[derive(Clone, Copy)]
pub enum Form<'a> {
    /// A word that has to be given.
    Word,
    /// A word that may be given.
    OptionalWord,
    /// One word or more.
    Words,
    /// A flag: `--` and its name.
    Flag,
    /// The same, or `-` and this letter.
    LetterFlag(char),
    /// An option: `--` and its name, and then a word, which the help calls so.
    Named(&'a str),
    /// The same, which has to be given.
    RequiredNamed(&'a str),
    /// An option: `--` and its name, and then a number from the least to the most.
    Number(&'a str, u64, u64),
}

/// A word, a flag or an option that a command takes, with its line of help.
#[derive(Clone, Copy)]
pub struct Parameter<'a> {
    pub name: &'a str,
    pub form: Form<'a>,
    pub about: &'a str,
}

impl<'a> Parameter<'a> {
    /// The name that stands after `--`, if it isn't a word.
    pub fn option_name(&self) -> Option<&'a str> {
        match self.form {
            Form::Word | Form::OptionalWord | Form::Words => None,
            Form::Flag
            | Form::LetterFlag(_)
            | Form::Named(_)
            | Form::RequiredNamed(_)
            | Form::Number(..) => Some(self.name),
        }
    }
}

/// A command: its name, its line of help, and what it takes.
#[derive(Clone, Copy)]
pub struct Usage<'a> {
    pub name: &'a str,
    pub about: &'a str,
    pub parameters: &'a [Parameter<'a>],
}

fn arg_of<'a>(alloc: Global, parameter: Parameter<'a>) -> Arg<'a>
    ensures rule { rule_of result ≡ rule_of_parameter parameter.entry }
    ensures local { result.global ≡ false }
{
    let name = parameter.name;
    let arg = Arg::new(alloc, name).help(parameter.about);
    match parameter.form {
        Form::Word => arg.required(true),
        Form::OptionalWord => arg,
        Form::Words => arg.required(true).num_args(1..),
        Form::Flag => arg.long(name).action(ArgAction::SetTrue),
        Form::LetterFlag(letter) => arg.long(name).action(ArgAction::SetTrue).short(letter),
        Form::Named(value) => arg.long(name).value_name(value),
        Form::RequiredNamed(value) => arg.long(name).value_name(value).required(true),
        Form::Number(value, least, most) => arg
            .long(name)
            .value_name(value)
            .value_parser(ValueParser::Unsigned(least, most)),
    }
}

fn command_of<'a>(alloc: Global, usage: Usage<'a>) -> Result<Command<'a>, AllocError>
    ensures app { IfOk result (λ c. app_of c ≡ app_of_usage usage.entry) }
    ensures local { IfOk result (λ c. (fields_of c).has_globals ≡ false) }
{
    let mut command = Command::new(alloc, usage.name).about(usage.about);
    for parameter in usage.parameters {
        command = command.arg(arg_of(alloc, *parameter))?;
    }
    Ok(command)
}

/// A line with these commands below it.
pub fn with_usages<'a>(
    alloc: Global,
    line: Command<'a>,
    usages: &[Usage<'a>],
) -> Result<Command<'a>, AllocError>
    ensures { IfOk result (λ c. app_of c ≡ with_usages (app_of line.entry) usages.now) }
{
    let mut line = line;
    for usage in usages {
        line = line.subcommand(command_of(alloc, *usage)?)?;
    }
    Ok(line)
}
