//! Reports of lawful runs of one client.

/// A client without ops.
pub const WITHOUT_OPS: &str = "\
lightrun report 1
scheduler static
reactors 1
period 1000000
pool 1 1
images 1
image m 16 1
clients 1
client a 1 0
thread 0 app 0
ran 1 0 done
did 1 0 began 0
called 1 0
thread 1 client 0
did 0 0 closed
thread 2 owner 0
ran 0 0 stop
device 0 0 0 1
home 1 1
end
";

/// A client that gets a channel, writes a block, reads it and puts the channel.
pub const FOUR_OPS: &str = "\
lightrun report 1
scheduler static
reactors 1
period 1000000
pool 4 1
images 1
image m 16 4
clients 1
client a 4 4
op get 0
op write 0 0 1 ab
op read 0 0 1
op put 0
thread 0 app 0
ran 1 0 done
did 1 0 began 1
called 1 0
thread 1 client 0
ran 2 0 reply 1
ran 2 1 reply 2
ran 1 0 putself 0
did 0 0 given 0
did 0 1 sent
did 0 2 sent
did 2 3 deferred
did 2 4 closed
reply 1 ok
reply 2 bytes abababababababababababababababab
thread 2 owner 0
ran 1 0 request 1
ran 1 1 request 2
ran 0 0 stop
device 0 1 0 1
home 4 1
end
";

/// A get comes before the put's own message was run, so that the channel stands.
pub const AGAIN: &str = "\
lightrun report 1
scheduler static
reactors 1
period 1000000
pool 4 1
images 1
image m 16 4
clients 1
client a 4 4
op get 0
op put 0
op get 0
op read 0 0 1
thread 0 app 0
ran 1 0 done
did 1 0 began 1
called 1 0
thread 1 client 0
ran 1 0 putself 0
ran 2 0 reply 3
ran 1 1 putself 0
did 0 0 given 0
did 0 1 deferred
did 0 2 again 0
did 0 3 sent
did 2 4 closed
reply 3 bytes 00000000000000000000000000000000
thread 2 owner 0
ran 1 0 request 3
ran 0 0 stop
device 0 1 0 1
home 4 1
end
";

/// A channel that is put and got back twice, so that two of the puts' messages are pending.
pub const TWO_PUTS: &str = "\
lightrun report 1
scheduler static
reactors 1
period 1000000
pool 4 1
images 1
image m 16 4
clients 1
client a 4 5
op get 0
op put 0
op get 0
op put 0
op get 0
thread 0 app 0
ran 1 0 done
did 1 0 began 1
called 1 0
thread 1 client 0
ran 1 0 putself 0
ran 1 1 putself 0
ran 1 2 putself 0
did 0 0 given 0
did 0 1 deferred
did 0 2 again 0
did 0 3 deferred
did 1 4 again 0
did 1 5 closed
thread 2 owner 0
ran 0 0 stop
device 0 1 0 1
home 4 1
end
";

/// A client that unregisters the device while it holds a channel.
pub const UNREGISTERS: &str = "\
lightrun report 1
scheduler static
reactors 1
period 1
pool 1 1
images 1
image m 16 1
clients 1
client a 1 3
op get 0
op unregister 0
op get 0
thread 0 app 0
ran 1 0 done
did 1 0 already
thread 1 client 0
ran 1 0 putself 0
did 0 0 given 0
did 0 1 began 1
did 0 2 shut
did 0 3 closed
called 1 0
thread 2 owner 0
ran 0 0 stop
device 0 1 1 1
home 1 1
end
";

/// A read without a channel goes to nobody.
pub const NO_CHANNEL: &str = "\
lightrun report 1
scheduler static
reactors 1
period 1000000
pool 4 1
images 1
image m 16 4
clients 1
client a 4 1
op read 0 0 1
thread 0 app 0
ran 1 0 done
did 1 0 began 0
called 1 0
thread 1 client 0
did 0 0 nochannel
did 0 1 closed
thread 2 owner 0
ran 0 0 stop
device 0 0 0 1
home 4 1
end
";

/// Two gets of one channel, of which the first put is counted, and the second waits for the read.
pub const COUNTED: &str = "\
lightrun report 1
scheduler static
reactors 1
period 1000000
pool 4 1
images 1
image m 16 4
clients 1
client a 4 5
op get 0
op get 0
op put 0
op read 0 0 1
op put 0
thread 0 app 0
ran 1 0 done
did 1 0 began 1
called 1 0
thread 1 client 0
ran 2 0 reply 3
ran 1 0 putself 0
did 0 0 given 0
did 0 1 again 0
did 0 2 counted
did 0 3 sent
did 1 4 deferred
did 1 5 closed
reply 3 bytes 00000000000000000000000000000000
thread 2 owner 0
ran 1 0 request 3
ran 0 0 stop
device 0 1 0 1
home 4 1
end
";

/// A client that holds two channels when it closes.
pub const HELD_AT_CLOSE: &str = "\
lightrun report 1
scheduler static
reactors 1
period 1
pool 1 1
images 2
image m 16 1
image n 16 1
clients 1
client a 1 2
op get 1
op get 0
thread 0 app 0
ran 1 0 done
did 1 0 began 1
did 1 1 began 1
called 1 0
called 1 1
thread 1 client 0
ran 1 0 putself 0
ran 1 1 putself 1
did 0 0 given 0
did 0 1 given 0
did 0 2 closed
thread 2 owner 0
ran 0 0 stop
thread 3 owner 0
ran 0 0 stop
device 0 1 0 1
device 1 1 0 1
home 1 1
end
";
