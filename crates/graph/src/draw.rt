// The text of a graph (docs/GRAPH.md): a line for each state, then a line for each arrow.
use limits::{MOST_EVENTS, MOST_STATES};
use property::Property;
use refusals::Refusal;
use std::io;
use verdicts::Verdict;

// The refusals from the one to the other have an offset.
const FIRST_WITH_OFFSET: u8 = Refusal::NotOfGrammar as u8;

const LAST_WITH_OFFSET: u8 = Refusal::TooDeep as u8;

// `refused`, its number, and where it has one its offset.
pub fn print_refusal(rt: &impl Print, refusal: u8, at: usize) -> io::Result<()> {
    match refusal {
        FIRST_WITH_OFFSET..=LAST_WITH_OFFSET => println!(rt; "refused {refusal} at {at}"),
        _ => println!(rt; "refused {refusal}"),
    }
}

// A state's verdict and its shape: a double circle for match, a grey box for fail, a circle for undecided. Hopeful states are
// bold.
fn print_state(rt: &impl Print, state: usize, verdict: u8, hopeful: bool) -> io::Result<()> {
    let line = if hopeful { "bold" } else { "solid" };
    match Verdict::try_from(verdict) {
        Ok(Verdict::Match) => println!(rt;
            "    {state} [label=\"{state} match\", shape=doublecircle, style=\"{line}\"];"
        ),
        Ok(Verdict::Fail) => println!(rt;
            "    {state} [label=\"{state} fail\", shape=box, fillcolor=grey, style=\"filled,{line}\"];"
        ),
        _ => println!(rt;
            "    {state} [label=\"{state} undecided\", shape=circle, style=\"{line}\"];"
        ),
    }
}

// What is drawn: a table, its hopeful states, and the texts that name its events.
#[derive(Drop)]
pub struct Graph<'a> {
    declarations: &'a [u8],
    pattern: &'a [u8],
    table: Property,
    hopeful: u64,
}

impl<'a> Graph<'a> {
    // The graph of a table. One that `translate` made is always in range.
    pub fn new(declarations: &'a [u8], pattern: &'a [u8], table: Property) -> Graph<'a> {
        let hopeful = match table.taken() {
            Ok(taken) => hopes::hopeful(&taken),
            Err(_) => 0,
        };
        Graph {
            declarations,
            pattern,
            table,
            hopeful,
        }
    }

    pub fn print(&self, rt: &impl Print) -> io::Result<()> {
        println!(rt; "digraph {{\n    rankdir=LR;")?;
        self.print_states(rt)?;
        for from in 0..self.table.states {
            for to in 0..self.table.states {
                self.print_arrow(rt, from, to)?;
            }
        }
        println!(rt; "}}")
    }

    // The first states of a table, as many as it has.
    fn print_states(&self, rt: &impl Print) -> io::Result<()> {
        let states = self.table.states.min(MOST_STATES);
        for (state, &verdict) in self.table.verdicts[..states].iter().enumerate() {
            print_state(rt, state, verdict, bits::has(self.hopeful, state))?;
        }
        Ok(())
    }

    // The arrow from one state to another, with the names of the events that go that way; nothing where none does.
    fn print_arrow(&self, rt: &impl Print, from: usize, to: usize) -> io::Result<()> {
        let mut events = (0..self.table.events).filter(|&event| self.leads(from, event, to));
        let Some(first) = events.next() else {
            return Ok(());
        };
        print!(rt; "    {from} -> {to} [label=\"")?;
        self.print_name(rt, first)?;
        for event in events {
            print!(rt; ", ")?;
            self.print_name(rt, event)?;
        }
        println!(rt; "\"];")
    }

    fn print_name(&self, rt: &impl Print, event: usize) -> io::Result<()> {
        rt.write_all(declared::event_name(self.declarations, self.pattern, event))
    }

    // Whether an event leads from one state to another.
    fn leads(&self, from: usize, event: usize, to: usize) -> bool {
        from < MOST_STATES
            && event < MOST_EVENTS
            && usize::from(self.table.next[from * MOST_EVENTS + event]) == to
    }
}
