// What the program writes: lines that stand in a text, to standard output.

#![tactic(auto)]

ghost use Rattle.std.specs.Prelude.{◌≤◌, length};
ghost use Rattle.lineparts.specs.Lines.{most_refusal, most_heading};

// A write has failed, which is said on standard error, or there is nothing that can be written: nothing more is printed.
#[derive(Clone, Copy)]
pub struct Stopped;

// Writes out the first bytes of a text; a write that fails is said on standard error.
pub fn write_out(rt: &(impl Print + Eprint), text: &[u8], filled: usize) -> Result<(), Stopped> {
    let lines = text.get(..filled).ok_or(Stopped)?;
    match rt.write_all(lines) {
        Ok(()) => Ok(()),
        Err(error) => {
            files::say(rt, "standard output", error);
            Err(Stopped)
        }
    }
}

// The only line where the declarations, the pattern or the header is refused.
pub fn print_refusal(rt: &(impl Print + Eprint), text: &mut [u8], refusal: u8)
    requires { most_refusal ≤ length text.old }
{
    let filled = lines::put_refusal(text, 0, refusal);
    let _ = write_out(rt, text, filled);
}

// The heading, of declarations that are taken.
pub fn print_heading(
    rt: &(impl Print + Eprint),
    text: &mut [u8],
    declarations: &[u8],
) -> Result<(), Stopped>
    requires { most_heading ≤ length text.old }
{
    match declaring::read(declarations) {
        Ok(_) => {
            let filled = heading::put_heading(text, 0, declarations);
            write_out(rt, text, filled)
        }
        Err(_) => Err(Stopped),
    }
}
