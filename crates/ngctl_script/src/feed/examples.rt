// Worked examples, computed from the definitions. Each function does nothing.
ghost use Rattle.ngctl_script.specs.feed.Examples.{BetweenExample, HalfSecondExample, LongTickExample, NoPacketExample, OddExample, OneTimeExample, TwoPortsExample};

/// Packets of two ports by their times, ticks between them, and late commands.
pub fn two_ports_example()
    ensures { TwoPortsExample }
{}

/// Packets of one time, and a command behind the last one.
pub fn one_time_example()
    ensures { OneTimeExample }
{}

/// A command between packets of one second.
pub fn between_example()
    ensures { BetweenExample }
{}

/// A tick of many seconds.
pub fn long_tick_example()
    ensures { LongTickExample }
{}

/// A tick of whole seconds, where half a second more went by.
pub fn half_second_example()
    ensures { HalfSecondExample }
{}

/// Times that fall back, equal times, and marks at both ends.
pub fn odd_example()
    ensures { OddExample }
{}

/// No packet, and no command either.
pub fn no_packet_example()
    ensures { NoPacketExample }
{}
