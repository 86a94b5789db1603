//! Reports of lawful runs of several clients.

/// Two clients of one image on two reactors, whose requests come to the owner by turns: each reads what the other wrote.
/// The second puts its channel and gets it back before the put's own message was run.
pub const SHARED: &str = "\
lightrun report 1
scheduler static
reactors 2
period 1000000
pool 2 1
images 1
image m 16 4
clients 2
client a 2 5
op get 0
op write 0 0 3 010203
op read 0 1 1
op flush 0
op put 0
client b 4 7
op get 0
op write 0 1 1 ff
op read 0 1 2
op put 0
op get 0
op read 0 0 1
op put 0
thread 0 app 0
ran 2 0 done
ran 1 0 done
did 2 0 began 2
called 2 0
thread 1 client 1
ran 3 0 reply 1
ran 3 1 reply 2
ran 3 2 reply 3
ran 1 0 putself 0
did 0 0 given 0
did 0 1 sent
did 0 2 sent
did 1 3 sent
did 3 4 deferred
did 3 5 closed
reply 1 ok
reply 2 bytes ffffffffffffffffffffffffffffffff
reply 3 writes 2
thread 2 client 0
ran 3 0 reply 1
ran 3 1 reply 2
ran 2 0 putself 0
ran 3 2 reply 5
ran 2 1 putself 0
did 0 0 given 1
did 0 1 sent
did 0 2 sent
did 2 3 deferred
did 2 4 again 1
did 2 5 sent
did 4 6 deferred
did 4 7 closed
reply 1 ok
reply 2 bytes ffffffffffffffffffffffffffffffff03010203010203010203010203010203
reply 5 bytes 01020301020301020301020301020301
thread 3 owner 1
ran 1 0 request 1
ran 2 0 request 1
ran 1 1 request 2
ran 2 1 request 2
ran 1 2 request 3
ran 2 2 request 5
ran 0 0 stop
device 0 2 0 1
home 2 1
end
";

/// Two images on three reactors: one client uses both, the other unregisters the second and finds it shut.
pub const TWO_IMAGES: &str = "\
lightrun report 1
scheduler static
reactors 3
period 1
pool 1 1
images 2
image m 16 4
image n 32 2
clients 2
client a 1 10
op get 0
op get 0
op get 1
op put 0
op write 1 0 1 aa
op flush 1
op put 0
op read 0 0 1
op put 0
op wait 5
client b 1 6
op read 1 0 1
op unregister 1
op unregister 1
op get 1
op visit 1
op put 1
thread 0 app 0
ran 2 0 done
ran 1 0 done
did 2 0 began 1
did 2 1 already
called 2 0
thread 1 client 1
ran 4 0 reply 4
ran 1 0 putself 0
ran 4 1 reply 5
ran 1 1 putself 1
did 0 0 given 0
did 0 1 again 0
did 0 2 given 0
did 0 3 counted
did 0 4 sent
did 1 5 sent
did 1 6 deferred
did 1 7 nochannel
did 1 8 nochannel
did 2 9 waited
did 3 10 closed
reply 4 ok
reply 5 writes 1
thread 2 client 2
did 0 0 nochannel
did 0 1 began 1
did 0 2 already
did 0 3 shut
did 0 4 shut
did 0 5 nochannel
did 0 6 closed
called 0 1
thread 3 owner 0
ran 0 0 stop
thread 4 owner 1
ran 1 0 request 4
ran 1 1 request 5
ran 0 0 stop
device 0 1 0 1
device 1 1 2 1
home 1 1
end
";

/// Three clients of one image on two reactors: two write a block, and the third reads it as the second of them left it.
pub const THREE_CLIENTS: &str = "\
lightrun report 1
scheduler static
reactors 2
period 1000000
pool 4 1
images 1
image m 16 4
clients 3
client a 4 2
op get 0
op write 0 0 1 aa
client b 4 2
op get 0
op write 0 0 1 bb
client c 4 2
op get 0
op read 0 0 1
thread 0 app 0
ran 2 0 done
ran 1 0 done
ran 3 0 done
did 3 0 began 3
called 3 0
thread 1 client 1
ran 4 0 reply 1
ran 1 0 putself 0
did 0 0 given 1
did 0 1 sent
did 1 2 closed
reply 1 ok
thread 2 client 0
ran 4 0 reply 1
ran 2 0 putself 0
did 0 0 given 0
did 0 1 sent
did 1 2 closed
reply 1 ok
thread 3 client 1
ran 4 0 reply 1
ran 3 0 putself 0
did 0 0 given 2
did 0 1 sent
did 1 2 closed
reply 1 bytes aaaaaaaaaaaaaaaaaaaaaaaaaaaaaaaa
thread 4 owner 0
ran 2 0 request 1
ran 1 0 request 1
ran 3 0 request 1
ran 0 0 stop
device 0 3 0 1
home 4 1
end
";

/// A client unregisters the device: a later get finds it shut, and so does the app.
pub const SHUT: &str = "\
lightrun report 1
scheduler static
reactors 1
period 1000000
pool 4 1
images 1
image m 16 4
clients 3
client b 4 2
op get 0
op read 0 0 1
client a 4 1
op unregister 0
client c 4 1
op get 0
thread 0 app 0
ran 3 0 done
ran 1 0 done
ran 2 0 done
did 3 0 already
thread 1 client 0
ran 4 0 reply 1
ran 1 0 putself 0
did 0 0 given 0
did 0 1 sent
did 1 2 closed
reply 1 bytes 00000000000000000000000000000000
thread 2 client 0
did 0 0 began 1
did 0 1 closed
called 0 0
thread 3 client 0
did 0 0 shut
did 0 1 closed
thread 4 owner 0
ran 1 0 request 1
ran 0 0 stop
device 0 1 2 1
home 4 1
end
";

/// Two clients that read three times each by one buffer.
pub const ONE_BUFFER: &str = "\
lightrun report 1
scheduler static
reactors 1
period 1000000
pool 1 1
images 1
image m 16 4
clients 2
client a 8 4
op get 0
op read 0 0 1
op read 0 0 1
op read 0 0 1
client b 8 4
op get 0
op read 0 0 1
op read 0 0 1
op read 0 0 1
thread 0 app 0
ran 1 0 done
ran 2 0 done
did 2 0 began 2
called 2 0
thread 1 client 0
ran 3 0 reply 1
ran 3 1 reply 2
ran 3 2 reply 3
ran 1 0 putself 0
did 0 0 given 0
did 0 1 sent
did 1 2 sent
did 2 3 sent
did 3 4 closed
reply 1 bytes 00000000000000000000000000000000
reply 2 bytes 00000000000000000000000000000000
reply 3 bytes 00000000000000000000000000000000
thread 2 client 0
ran 3 0 reply 1
ran 3 1 reply 2
ran 3 2 reply 3
ran 2 0 putself 0
did 0 0 given 1
did 0 1 sent
did 1 2 sent
did 2 3 sent
did 3 4 closed
reply 1 bytes 00000000000000000000000000000000
reply 2 bytes 00000000000000000000000000000000
reply 3 bytes 00000000000000000000000000000000
thread 3 owner 0
ran 1 0 request 1
ran 1 1 request 2
ran 1 2 request 3
ran 2 0 request 1
ran 2 1 request 2
ran 2 2 request 3
ran 0 0 stop
device 0 2 0 1
home 1 1
end
";
