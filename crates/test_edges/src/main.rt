#![tactic(auto)]
// Answers that no record of `test_leaves` and no script of `test_replay` can show: the kinds of refusals, columns that a row does not have, errors that a short
// buffer cuts, and a reader whose buffer is short for one read. A line is a letter and four numbers.
mod folds;
mod kinds;
mod reads;
mod rows;

ghost use Rattle.std.specs.Prelude.{◌≡◌, [], ◌∷◌, ◌++◌};
ghost use Rattle.test_lines.specs.Line.{pieces, number_texts, end_texts};

use std::io::Stdout;

fn spelled(line: &mut [u8], letter: u8, a: u64, b: u64, c: u64, d: u64) -> usize
    ensures { (result, line.new)
        ≡ pieces line.old 0
        (((letter ∷ []) ∷ []) ++ (number_texts a ++ (number_texts b ++ (number_texts c ++ (number_texts d ++ end_texts))))) }
{
    let e = wire::store::place(line, 0, &[letter]);
    let f = test_lines::number(line, e, a);
    let g = test_lines::number(line, f, b);
    let h = test_lines::number(line, g, c);
    let i = test_lines::number(line, h, d);
    test_lines::end(line, i)
}

// A line that cannot be written is let go, and the next ones come all the same.
pub(crate) fn told(output: Stdout, letter: u8, a: u64, b: u64, c: u64, d: u64) {
    let mut line = [0u8; 128];
    let n = spelled(&mut line, letter, a, b, c, d);
    let _ = test_lines::print(output, &line, n);
}

fn main(rt: HostRuntime) {
    let output = rt.stdout();
    kinds::all(output);
    rows::all(output);
    folds::all(output);
    reads::all(output);
}
