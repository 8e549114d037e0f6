// One line of a script after the other, and what is printed for each.
use crate::engine::Net;
use crate::trouble::Trouble;
use crate::watch::Asked;
use script::{Command, Fault};
use std::io;

// `net`: the net that is played, once a line has said how many boxes it has. `asked`: how it is watched.
#[derive(Drop)]
pub(crate) struct Player {
    net: Option<Net>,
    asked: Asked,
}

fn tell_rest(rt: &HostRuntime, net: &Net) -> Result<(), Trouble> {
    let word = if net.at_rest() { "rest" } else { "no rest" };
    println!(rt; "{word}")?;
    Ok(())
}

impl Player {
    pub(crate) fn new(asked: Asked) -> Player {
        Player { net: None, asked }
    }

    // Plays one line: a refused one prints the number of the refusal and changes nothing.
    pub(crate) fn line(&mut self, rt: &HostRuntime, line: &[u8]) -> io::Result<()> {
        match self.play(rt, line) {
            Ok(()) => Ok(()),
            Err(Trouble::Refused(fault)) => println!(rt; "{}", u8::from(fault)),
            Err(Trouble::Failed(e)) => Err(e),
        }
    }

    // The script is at its end.
    pub(crate) fn close(&mut self) -> io::Result<()> {
        match &mut self.net {
            Some(net) => net.close(),
            None => Ok(()),
        }
    }

    // A line that says how many boxes there are begins a new net; before the first there is none to play.
    fn play(&mut self, rt: &HostRuntime, line: &[u8]) -> Result<(), Trouble> {
        let command = script::read(line)?;
        if let Command::Boxes(count) = command {
            self.close()?;
            let net = Net::new(rt, count, &self.asked)?;
            let told = tell_rest(rt, &net);
            self.net = Some(net);
            return told;
        }
        let net = self.net.as_mut().ok_or(Fault::Form)?;
        if let Some(fate) = net.obey(rt, command)? {
            println!(rt; "{fate}")?;
        }
        tell_rest(rt, net)
    }
}
