// The script's lines answered on the lent tables.
#![tactic(auto)]

ghost use Rattle.script_answers.specs.Answers.{AnswersLine};

use calls::{close, open};
use script_lines::buffers::Printed;
use script_lines::{AskedLine, path_units, print, print_unknown, read_line};

// What a line prints. A line that asks nothing leaves every byte of the tables.
pub fn answer_line(b: &mut [u8], line: &[u8]) -> Printed
    ensures { AnswersLine line.now result b.old b.new }
{
    match read_line(line) {
        None => print_unknown(),
        Some(AskedLine::Open(r, at)) => {
            let path = path_units(line, at);
            print(open(b, r, path.as_slice()))
        }
        Some(AskedLine::Close(h)) => print(close(b, h)),
    }
}
