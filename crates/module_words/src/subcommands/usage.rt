//! What `help` alone says.

/// How the functions are called, without where their pages are.
pub const USAGE: &str = r#"usage: module SUBCOMMAND [OPTION...] [NAME...]
       module help [NAME...] | --help | --version
       ml [-NAME...] [NAME...]

Subcommands:
  load, add [--auto] NAME...
                            load modules (--auto: with what they need)
  unload, rm, del, remove [--auto] NAME...
                            unload the last loaded module of each name
                            (--auto: with what needs them)
  switch, swap [OLD] NEW    unload OLD and load NEW
  purge                     unload all modules
  reload, refresh           unload all modules and load them again
  forget [--settings-stay] NAME...
                            drop modules whose files are gone from the list of
                            loaded ones (--settings-stay: also others)
  list [-t] [TEXT...]       say which modules are loaded (-t: one a line)
  avail [-t] [-d|-L] [-C] [-i] [TEXT...]
                            say which modules can be loaded, of TEXT those that
                            begin so (-C: that have it, -i: in any letters, -d:
                            the default versions, -L: the last, -t: one a line)
  show, display NAME...     say what modules do
  whatis [NAME...]          say what modules are
  keyword, apropos, search TEXT
                            say which modules have the text in name or whatis
  is-loaded [NAME...]       status 0 where one of them is loaded
  is-avail NAME...          status 0 where one of them can be loaded
  use [-a] DIR...           search directories first (-a: last)
  use                       say which directories are searched
  unuse DIR...              no longer search directories
  save [COLLECTION]         keep what is loaded and searched under a name
  restore [COLLECTION]      have that again, and nothing else
  savelist                  say which collections there are
  saveshow [COLLECTION]     say what is in one
  saverm COLLECTION         remove one

A NAME is that of a module (gcc/9), or of its directory (gcc): then the default
version is loaded, and the version that is loaded is unloaded.
"ml" alone is "module list", "ml NAME" loads, "ml -NAME" unloads.
A beginning that means one subcommand is enough: "module av", "module sw".
A refused command changes nothing."#;

/// What is installed, and what it does as.
pub const VERSION: &str = "modulecmd 0.1, after Environment Modules 5.2";
