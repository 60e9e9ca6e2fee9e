// Whether a token is expected where a run stands: the program's words tell it without a try.
ghost use Rattle.std.specs.Prelude.{◌≡◌};
ghost use Rattle.preview.specs.expected.Expected.{Legible, expected_at};

// A terminal expects its own token, a nonterminal those for which the directory names an alternative. Where nothing is left no token is expected; an operation that waits for none says nothing against it.
pub fn expected(program: &[u32], at: usize, token: usize) -> bool
    requires { Legible program.now at token }
    ensures { result ≡ expected_at program.now at token }
{
    let word = run_moves::word_at(program, at);
    let operation = program_parts::operation(word);
    if operation == operations::READ {
        return program_parts::operand(word) == token;
    }
    if operation == operations::PREDICT {
        let row = program_parts::DIRECTORY
            + program_parts::DIRECTORY_WORDS * program_parts::operand(word);
        return run_moves::word_at(program, row + token) != 0;
    }
    operation != operations::NOTHING
}
