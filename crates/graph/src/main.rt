// Draws the state graph of a pattern as Graphviz text (docs/GRAPH.md). It reads `events.csv` and `pattern.txt` in the folder
// where it runs; the table is that of the proved `translate`, and its hopeful states are those of the proved `hopeful`.

#![tactic(auto)]

use draw::{Graph, print_refusal};
use std::io;

mod draw;

// A text of 4,096 bytes is taken. One byte more is enough to see that a text is longer, which `translate` then refuses.
const TEXT_ROOM: usize = 4097;

// The graph of two texts, or why there is none.
fn print_answer(rt: &impl Print, declarations: &[u8], pattern: &[u8]) -> io::Result<()> {
    let t = translate::translate(declarations, pattern);
    if t.refusal != refusals::TAKEN {
        return print_refusal(rt, t.refusal, t.at);
    }
    Graph::new(declarations, pattern, t.property).print(rt)
}

fn main(rt: HostRuntime) -> io::Result<()> {
    let mut declarations = [0u8; TEXT_ROOM];
    let declared_to = files::read_whole(&rt, "events.csv", &mut declarations);
    let mut pattern = [0u8; TEXT_ROOM];
    let pattern_to = files::read_whole(&rt, "pattern.txt", &mut pattern);
    print_answer(&rt, &declarations[..declared_to], &pattern[..pattern_to])
}
