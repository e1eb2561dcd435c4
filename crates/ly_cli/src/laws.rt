ghost use Rattle.std.specs.Prelude.{List};
ghost use Rattle.clap.specs.Words.{Text};
ghost use Rattle.ly_cli.specs.CommandLine.{Mean};
ghost use Rattle.ly_cli.specs.Paths.{AskFor};
ghost use Rattle.ly_cli.specs.Request.{Request};

/// Arguments that ask for something, with an option and its value as two arguments, mean it.
pub fn words_that_ask_mean()
    ensures { (words : List Text) (request : Request) → AskFor words request → Mean words request }
{}
