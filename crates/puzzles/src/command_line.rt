//! The command line: the commands of the program, with their words and options.
ghost use Rattle.std.specs.Prelude.{◌≡◌, IfOk};
ghost use Rattle.clap.specs.Simple.{app_of};
ghost use Rattle.puzzles.specs.CommandLine.{IsApp, solve_app, check_app, grade_app, generate_app, puzzles_app};

use clap::{Arg, ArgAction, Command};
use std::alloc::{AllocError, Global};

/// `solve GAME [ID] [--budget B]`
fn solve_command<'a>(alloc: Global) -> Result<Command<'a>, AllocError>
    ensures { IfOk result (IsApp solve_app) }
{
    Command::new(alloc, "solve")
        .arg(Arg::new(alloc, "game").required(true))?
        .arg(Arg::new(alloc, "id"))?
        .arg(Arg::new(alloc, "budget").long("budget"))
}

/// `check GAME ID`
fn check_command<'a>(alloc: Global) -> Result<Command<'a>, AllocError>
    ensures { IfOk result (IsApp check_app) }
{
    Command::new(alloc, "check")
        .arg(Arg::new(alloc, "game").required(true))?
        .arg(Arg::new(alloc, "id").required(true))
}

/// `grade GAME ID [--budget B] [--trace]`
fn grade_command<'a>(alloc: Global) -> Result<Command<'a>, AllocError>
    ensures { IfOk result (IsApp grade_app) }
{
    Command::new(alloc, "grade")
        .arg(Arg::new(alloc, "game").required(true))?
        .arg(Arg::new(alloc, "id").required(true))?
        .arg(Arg::new(alloc, "budget").long("budget"))?
        .arg(
            Arg::new(alloc, "trace")
                .long("trace")
                .action(ArgAction::SetTrue),
        )
}

/// `generate GAME SIZE --seed S [--budget B] [--tries T] [--black P]`
fn generate_command<'a>(alloc: Global) -> Result<Command<'a>, AllocError>
    ensures { IfOk result (IsApp generate_app) }
{
    Command::new(alloc, "generate")
        .arg(Arg::new(alloc, "game").required(true))?
        .arg(Arg::new(alloc, "size").required(true))?
        .arg(Arg::new(alloc, "seed").long("seed").required(true))?
        .arg(Arg::new(alloc, "budget").long("budget"))?
        .arg(Arg::new(alloc, "tries").long("tries"))?
        .arg(Arg::new(alloc, "black").long("black"))
}

/// The program with its four commands. It has no help and no version, and wants a command.
pub fn puzzles_command<'a>(alloc: Global) -> Result<Command<'a>, AllocError>
    ensures { IfOk result (λ c. app_of c ≡ puzzles_app) }
{
    Command::new(alloc, "puzzles")
        .no_binary_name(true)
        .disable_help_flag(true)
        .disable_help_subcommand(true)
        .disable_version_flag(true)
        .subcommand_required(true)
        .subcommand(solve_command(alloc)?)?
        .subcommand(check_command(alloc)?)?
        .subcommand(grade_command(alloc)?)?
        .subcommand(generate_command(alloc)?)
}
