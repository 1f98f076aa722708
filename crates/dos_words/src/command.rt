//! The words as `clap` is told of them: the program's commands, each with its options and names.
ghost use Rattle.std.specs.Prelude.{◌≡◌, IfOk, false, map, fold, ◌∷◌, []};
ghost use Rattle.clap.specs.Words.{App, Shape, app_of, shape_of, rule_of, with_rule};
ghost use Rattle.clap.specs.Words.{with_subcommand, new_app};
ghost use Rattle.clap.specs.declared.builder.command.Command.TheViews.{out-Command as fields_of};
ghost use Rattle.dos_words.specs.Commands.{run, replay, inspect, gen, migrate};
ghost use Rattle.dos_words.specs.Commands.{debug_command, resume_command, save_command};
ghost use Rattle.dos_words.specs.Commands.{trace_command};
ghost use Rattle.dos_words.specs.Clap.{option_rule, names_rule, command_shape, bare_app, words_app};

use clap::{Arg, ArgAction, Command};
use std::alloc::{AllocError, Global};

/// An option: it takes one value.
fn option_argument<'a>(alloc: Global, name: &'a str) -> Arg<'a>
    ensures rule { rule_of result ≡ option_rule name.entry.now }
    ensures local { result.global ≡ false }
{
    Arg::new(alloc, name).long(name).action(ArgAction::Set)
}

/// The names behind the options: there is at least one.
fn names_argument<'a>(alloc: Global) -> Arg<'a>
    ensures rule { rule_of result ≡ names_rule }
    ensures local { result.global ≡ false }
{
    Arg::new(alloc, "names")
        .action(ArgAction::Set)
        .num_args(1..)
}

/// With one argument more, where there is a command yet.
fn with_argument<'a>(
    command: Result<Command<'a>, AllocError>,
    argument: Arg<'a>,
) -> Result<Command<'a>, AllocError>
    requires { argument.global ≡ false }
    ensures app { (app : App) → IfOk command.entry (λ c. app_of c ≡ app)
        → IfOk result (λ c. app_of c ≡ with_rule app (rule_of argument.entry)) }
    ensures local { IfOk command.entry (λ c. (fields_of c).has_globals ≡ false)
        → IfOk result (λ c. (fields_of c).has_globals ≡ false) }
{
    match command {
        Err(error) => {
            drop(argument);
            Err(error)
        }
        Ok(command) => command.arg(argument),
    }
}

/// With one option more, where there is a command yet.
fn with_option<'a>(
    alloc: Global,
    command: Result<Command<'a>, AllocError>,
    name: &'a str,
) -> Result<Command<'a>, AllocError>
    ensures app { (app : App) → IfOk command.entry (λ c. app_of c ≡ app)
        → IfOk result (λ c. app_of c ≡ with_rule app (option_rule name.entry.now)) }
    ensures local { IfOk command.entry (λ c. (fields_of c).has_globals ≡ false)
        → IfOk result (λ c. (fields_of c).has_globals ≡ false) }
{
    with_argument(command, option_argument(alloc, name))
}

/// With the names behind the options, where there is a command yet.
fn with_names<'a>(
    alloc: Global,
    command: Result<Command<'a>, AllocError>,
) -> Result<Command<'a>, AllocError>
    ensures app { (app : App) → IfOk command.entry (λ c. app_of c ≡ app)
        → IfOk result (λ c. app_of c ≡ with_rule app names_rule) }
    ensures local { IfOk command.entry (λ c. (fields_of c).has_globals ≡ false)
        → IfOk result (λ c. (fields_of c).has_globals ≡ false) }
{
    with_argument(command, names_argument(alloc))
}

/// With options more, in their order.
fn with_options<'a>(
    alloc: Global,
    command: Command<'a>,
    names: &[&'a str],
) -> Result<Command<'a>, AllocError>
    ensures app { IfOk result (λ c.
        app_of c
        ≡ fold with_rule (app_of command.entry) (map (λ s. option_rule s.now) names.now)) }
    ensures local { (fields_of command.entry).has_globals ≡ false
        → IfOk result (λ c. (fields_of c).has_globals ≡ false) }
{
    let mut more = Ok(command);
    for name in names {
        more = with_option(alloc, more, name);
    }
    more
}

fn run_command<'a>(alloc: Global) -> Result<Command<'a>, AllocError>
    ensures shape { IfOk result (λ c. shape_of c ≡ command_shape run) }
    ensures local { IfOk result (λ c. (fields_of c).has_globals ≡ false) }
{
    let options = [
        "quantum",
        "rounds",
        "frames",
        "workers",
        "scheme",
        "signals",
        "clock-from",
        "clock-step",
        "log",
    ];
    let command = with_options(alloc, Command::new(alloc, "run"), &options);
    with_names(alloc, command)
}

fn replay_command<'a>(alloc: Global) -> Result<Command<'a>, AllocError>
    ensures shape { IfOk result (λ c. shape_of c ≡ command_shape replay) }
    ensures local { IfOk result (λ c. (fields_of c).has_globals ≡ false) }
{
    let options = ["workers", "scheme", "log"];
    let command = with_options(alloc, Command::new(alloc, "replay"), &options);
    with_names(alloc, command)
}

fn inspect_command<'a>(alloc: Global) -> Result<Command<'a>, AllocError>
    ensures shape { IfOk result (λ c. shape_of c ≡ command_shape inspect) }
    ensures local { IfOk result (λ c. (fields_of c).has_globals ≡ false) }
{
    with_names(alloc, Ok(Command::new(alloc, "inspect")))
}

fn gen_command<'a>(alloc: Global) -> Result<Command<'a>, AllocError>
    ensures shape { IfOk result (λ c. shape_of c ≡ command_shape gen) }
    ensures local { IfOk result (λ c. (fields_of c).has_globals ≡ false) }
{
    let options = ["number", "threads", "workers"];
    with_options(alloc, Command::new(alloc, "gen"), &options)
}

fn migrate_command<'a>(alloc: Global) -> Result<Command<'a>, AllocError>
    ensures shape { IfOk result (λ c. shape_of c ≡ command_shape migrate) }
    ensures local { IfOk result (λ c. (fields_of c).has_globals ≡ false) }
{
    let options = ["log", "to"];
    with_options(alloc, Command::new(alloc, "migrate"), &options)
}

fn traces_command<'a>(alloc: Global) -> Result<Command<'a>, AllocError>
    ensures shape { IfOk result (λ c. shape_of c ≡ command_shape trace_command) }
    ensures local { IfOk result (λ c. (fields_of c).has_globals ≡ false) }
{
    let options = ["workers", "log"];
    let command = with_options(alloc, Command::new(alloc, "trace"), &options);
    with_names(alloc, command)
}

fn save_command<'a>(alloc: Global) -> Result<Command<'a>, AllocError>
    ensures shape { IfOk result (λ c. shape_of c ≡ command_shape save_command) }
    ensures local { IfOk result (λ c. (fields_of c).has_globals ≡ false) }
{
    let options = ["workers", "log", "round", "to"];
    let command = with_options(alloc, Command::new(alloc, "save"), &options);
    with_names(alloc, command)
}

fn resume_command<'a>(alloc: Global) -> Result<Command<'a>, AllocError>
    ensures shape { IfOk result (λ c. shape_of c ≡ command_shape resume_command) }
    ensures local { IfOk result (λ c. (fields_of c).has_globals ≡ false) }
{
    let options = ["workers", "log", "from"];
    with_options(alloc, Command::new(alloc, "resume"), &options)
}

fn debugs_command<'a>(alloc: Global) -> Result<Command<'a>, AllocError>
    ensures shape { IfOk result (λ c. shape_of c ≡ command_shape debug_command) }
    ensures local { IfOk result (λ c. (fields_of c).has_globals ≡ false) }
{
    let options = ["workers", "log"];
    let command = with_options(alloc, Command::new(alloc, "debug"), &options);
    with_names(alloc, command)
}

/// The program itself. Its words are without its name; help is no word of it.
fn bare_command<'a>(alloc: Global) -> Command<'a>
    ensures { app_of result ≡ bare_app }
{
    Command::new(alloc, "dos")
        .no_binary_name(true)
        .disable_help_flag(true)
        .disable_help_subcommand(true)
}

/// With one command more, where that one was made.
fn with_made<'a>(
    whole: Command<'a>,
    made: Result<Command<'a>, AllocError>,
) -> Result<Command<'a>, AllocError>
    ensures { (app : App) (shape : Shape) → app_of whole.entry ≡ app
        → IfOk made.entry (λ c. shape_of c ≡ shape)
        → IfOk made.entry (λ c. (fields_of c).has_globals ≡ false)
        → IfOk result (λ c. app_of c ≡ with_subcommand app shape) }
{
    match made {
        Err(error) => {
            drop(whole);
            Err(error)
        }
        Ok(command) => whole.subcommand(command),
    }
}

/// With one command more, where both were made.
fn with_command<'a>(
    whole: Result<Command<'a>, AllocError>,
    made: Result<Command<'a>, AllocError>,
) -> Result<Command<'a>, AllocError>
    ensures { (app : App) (shape : Shape) → IfOk whole.entry (λ c. app_of c ≡ app)
        → IfOk made.entry (λ c. shape_of c ≡ shape)
        → IfOk made.entry (λ c. (fields_of c).has_globals ≡ false)
        → IfOk result (λ c. app_of c ≡ with_subcommand app shape) }
{
    match whole {
        Err(error) => {
            drop(made);
            Err(error)
        }
        Ok(whole) => with_made(whole, made),
    }
}

/// The program with the commands that run images from files.
fn runs_command<'a>(alloc: Global) -> Result<Command<'a>, AllocError>
    ensures { IfOk result (λ c.
        app_of c ≡ fold with_subcommand bare_app (map command_shape (run ∷ replay ∷ []))) }
{
    let whole = with_made(bare_command(alloc), run_command(alloc));
    with_command(whole, replay_command(alloc))
}

/// The program with the commands that read files.
fn files_command<'a>(alloc: Global) -> Result<Command<'a>, AllocError>
    ensures { IfOk result (λ c.
        app_of c
        ≡ fold with_subcommand bare_app (map command_shape (run ∷ replay ∷ inspect ∷ []))) }
{
    with_command(runs_command(alloc), inspect_command(alloc))
}

/// The program with the commands of images.
fn images_command<'a>(alloc: Global) -> Result<Command<'a>, AllocError>
    ensures { IfOk result (λ c.
        app_of c
        ≡ fold with_subcommand bare_app
        (map command_shape (run ∷ replay ∷ inspect ∷ gen ∷ []))) }
{
    with_command(files_command(alloc), gen_command(alloc))
}

/// The program with the commands of images and logs.
fn logs_command<'a>(alloc: Global) -> Result<Command<'a>, AllocError>
    ensures { IfOk result (λ c.
        app_of c
        ≡ fold with_subcommand bare_app
        (map command_shape (run ∷ replay ∷ inspect ∷ gen ∷ migrate ∷ []))) }
{
    with_command(images_command(alloc), migrate_command(alloc))
}

/// The program with all commands but those of saved groups.
fn first_commands<'a>(alloc: Global) -> Result<Command<'a>, AllocError>
    ensures { IfOk result (λ c.
        app_of c
        ≡ fold with_subcommand bare_app
        (map command_shape (run ∷ replay ∷ inspect ∷ gen ∷ migrate ∷ trace_command ∷ []))) }
{
    with_command(logs_command(alloc), traces_command(alloc))
}

/// The program with all commands but the last two.
fn many_commands<'a>(alloc: Global) -> Result<Command<'a>, AllocError>
    ensures { IfOk result (λ c.
        app_of c
        ≡ fold with_subcommand bare_app
        (map command_shape
        (run ∷ replay ∷ inspect ∷ gen ∷ migrate ∷ trace_command ∷ save_command ∷ []))) }
{
    with_command(first_commands(alloc), save_command(alloc))
}

/// The program with all commands but the last.
fn most_commands<'a>(alloc: Global) -> Result<Command<'a>, AllocError>
    ensures { IfOk result (λ c.
        app_of c
        ≡ fold with_subcommand bare_app
        (map command_shape
        (run ∷ replay ∷ inspect ∷ gen ∷ migrate ∷ trace_command ∷ save_command ∷ resume_command
        ∷ []))) }
{
    with_command(many_commands(alloc), resume_command(alloc))
}

/// The program with its commands.
pub fn words_command<'a>(alloc: Global) -> Result<Command<'a>, AllocError>
    ensures { IfOk result (λ c. app_of c ≡ words_app) }
{
    with_command(most_commands(alloc), debugs_command(alloc))
}
