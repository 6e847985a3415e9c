//! The command lines that `clap` reads: each command is its row of the table.
ghost use Rattle.std.specs.Prelude.{◌≡◌, IfOk};
ghost use Rattle.clap.specs.Words.{app_of, with_rule};
ghost use Rattle.unwrap.specs.Table.{arguments_of, described, groups_of, row_view, rule_of};
ghost use Rattle.unwrap.specs.Table.{with_arguments, with_groups};

use crate::command_line::table::{Argument, Form, Row};
use clap::{Arg, ArgAction, Command};
use std::alloc::{AllocError, Global};

fn with_argument<'a>(
    alloc: Global,
    command: Command<'a>,
    form: Form,
    name: &'static str,
) -> Result<Command<'a>, AllocError>
    ensures { IfOk result (λ c.
        app_of c ≡ with_rule (app_of command.entry) (rule_of form name.now)) }
{
    match form {
        Form::Value => command.arg(Arg::new(alloc, name).long(name)),
        Form::Flag => {
            let flag = Arg::new(alloc, name).long(name);
            command.arg(flag.action(ArgAction::SetTrue))
        }
        Form::Values => command.arg(Arg::new(alloc, name).num_args(0..)),
        Form::OneValue => command.arg(Arg::new(alloc, name).required(true)),
    }
}

fn with_arguments<'a>(
    alloc: Global,
    command: Command<'a>,
    arguments: &[Argument],
) -> Result<Command<'a>, AllocError>
    ensures { IfOk result (λ c.
        app_of c ≡ with_arguments (app_of command.entry) (arguments_of arguments.now)) }
{
    let mut command = command;
    for argument in arguments {
        let (form, name) = *argument;
        command = with_argument(alloc, command, form, name)?;
    }
    Ok(command)
}

fn with_groups<'a>(
    alloc: Global,
    command: Command<'a>,
    groups: &[&[Argument]],
) -> Result<Command<'a>, AllocError>
    ensures { IfOk result (λ c.
        app_of c ≡ with_groups (app_of command.entry) (groups_of groups.now)) }
{
    let mut command = command;
    for group in groups {
        command = with_arguments(alloc, command, *group)?;
    }
    Ok(command)
}

// The command of a row.
#[tactic(auto, unfolding(crate::specs::Table::described))]
pub(super) fn described<'a>(alloc: Global, row: Row) -> Result<Command<'a>, AllocError>
    ensures { IfOk result (λ c. app_of c ≡ described (row_view row.entry)) }
{
    let (word, _, groups) = row;
    with_groups(alloc, Command::new(alloc, word), groups)
}
