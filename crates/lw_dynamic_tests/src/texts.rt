//! Reports of lawful dynamic runs.

/// The client waits on reactor 1, is ordered to reactor 0 in the one round, and ends there.
pub const ONE_MOVE: &str = "\
lightrun report 1
scheduler dynamic
reactors 2
period 10
pool 1 1
images 1
image m 16 1
clients 1
client a 1 1
op wait 5
thread 0 app 0
ran 1 0 done
did 1 0 began 0
called 1 0
thread 1 client 1
hop 1 0
did 0 0 waited
did 0 1 closed
thread 2 owner 0
ran 0 0 stop
device 0 0 0 1
clock 0 10
round 1 10
row 0 0 0 0
row 1 1 0 0
row 2 0 0 0
order 1 0
home 1 1
end
";

/// Three rounds on one reactor, as soon as each is due, without an order.
pub const QUIET: &str = "\
lightrun report 1
scheduler dynamic
reactors 1
period 7
pool 1 1
images 1
image m 16 1
clients 1
client a 1 0
thread 0 app 0
ran 1 0 done
did 1 0 began 0
called 1 0
thread 1 client 0
did 0 0 closed
thread 2 owner 0
ran 0 0 stop
device 0 0 0 1
clock 3 30
round 1 10
row 0 0 4 3
row 1 0 0 0
row 2 0 7 0
round 2 17
round 3 24
row 2 0 18446744073709551615 18446744073709551615
home 1 1
end
";

/// Three rounds on three reactors with two orders each. Of each round one order has a hop, and the other, of a thread that
/// ended before it came, has none.
pub const SIX_ORDERS: &str = "\
lightrun report 1
scheduler dynamic
reactors 3
period 100
pool 1 1
images 1
image m 16 1
clients 2
client a 1 1
op wait 5
client b 1 0
thread 0 app 0
ran 1 0 done
ran 2 0 done
did 2 0 began 0
called 2 0
thread 1 client 1
hop 1 0
hop 3 1
did 0 0 waited
did 0 1 closed
thread 2 client 2
hop 2 0
did 0 0 closed
thread 3 owner 0
ran 0 0 stop
device 0 0 0 1
clock 5 409
round 1 105
row 0 0 30 70
row 1 1 0 100
row 2 2 50 50
row 3 0 10 90
order 0 1
order 1 0
round 2 210
row 0 0 0 0
row 1 0 0 5
row 2 2 19 81
row 3 0 80 20
order 2 0
order 3 1
round 3 310
row 1 0 50 50
row 2 0 0 100
row 3 0 31 69
order 1 1
order 3 2
home 1 1
end
";
