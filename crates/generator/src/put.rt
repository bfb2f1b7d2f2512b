// Words in a row from a place on, and the place behind them. A row is of a fixed length, so that no memmove is asked for it.
ghost use Rattle.generator.specs.Written.{Fits, Wrote};

pub fn put<const N: usize>(code: &mut [u32], at: usize, row: [u32; N]) -> usize
    requires { Fits code.old at row }
    ensures { Wrote code.old code.new at result row.entry }
{
    code[at..at + N].copy_from_slice(&row);
    at + N
}
