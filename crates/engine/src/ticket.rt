ghost use Rattle.std.specs.Prelude.{◌≡◌};

// A prepared pattern, which is owed: it is entered or given back. Only this crate makes one and takes one apart.
pub struct Ticket {
    number: usize,
}

impl Ticket {
    pub(crate) fn of(number: usize) -> Ticket
        ensures { result.number ≡ number }
    {
        Ticket { number }
    }

    // The number that holds the pattern.
    pub fn number(&self) -> usize
        ensures { result ≡ self.now.number }
    {
        self.number
    }

    // Spends the ticket: whoever has the number now owes that it is released.
    pub fn enter(self) -> usize
        ensures { result ≡ self.number }
    {
        let Ticket { number } = self;
        number
    }
}

// The leave to hold a text without a ticket: only this crate makes one, so a pattern is prepared with a ticket.
#[derive(Drop)]
pub struct Leave(());

impl Leave {
    pub(crate) fn new() -> Leave {
        Leave(())
    }
}
