//! What a board rests on.
ghost use Rattle.std.specs.Prelude.{◌≡◌, [], None};
ghost use Rattle.uart_lite.specs.Machine.{SerialPort, cycled, leaving};

/// A UART with nothing to send, to which nothing arrives, is the same after each cycle: no byte leaves, and no edge comes.
pub fn an_idle_uart_stays()
    ensures sends_nothing { (u : SerialPort) → u.tx ≡ [] → leaving u ≡ None }
    ensures stays { (u : SerialPort) → u.tx ≡ [] → cycled None u ≡ u }
{}
