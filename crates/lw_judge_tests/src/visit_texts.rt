//! Reports of lawful runs with visits and casts.

/// A cast and then a visit, which finds no channel.
pub const CAST_AND_VISIT: &str = "\
lightrun report 1
scheduler static
reactors 1
period 1
pool 1 1
images 1
image m 16 1
clients 1
client a 1 2
op each
op visit 0
thread 0 app 0
ran 1 0 cast 1 0
ran 1 1 visit 1 1 0
ran 1 2 done
did 3 0 began 0
called 3 0
thread 1 client 0
ran 0 0 cast 1 0
ran 2 0 casted 0
ran 0 1 visit 1 1 0
ran 2 1 visited 1
did 0 0 started
did 2 1 started
did 4 2 closed
seen 0 0 1 2
seen 1
thread 2 owner 0
ran 1 0 cast 1 0
ran 1 1 visit 1 1 0
ran 0 0 stop
device 0 0 0 1
home 1 1
end
";

/// A visit of the device and a cast to all threads, past a client that has ended.
pub const VISITS: &str = "\
lightrun report 1
scheduler static
reactors 1
period 1000000
pool 4 1
images 1
image m 16 4
clients 3
client x 4 0
client y 4 2
op get 0
op visit 0
client z 4 1
op each
thread 0 app 0
ran 1 0 done
ran 2 0 visit 2 1 0
ran 3 0 cast 3 0
ran 3 1 done
ran 2 1 done
did 5 0 began 1
called 5 0
thread 1 client 0
did 0 0 closed
thread 2 client 0
ran 0 0 visit 2 1 0
ran 0 1 cast 3 0
ran 4 0 visited 1
ran 2 0 putself 0
did 0 0 given 0
did 0 1 started
did 3 2 closed
seen 1 2:0
thread 3 client 0
ran 2 0 visit 2 1 0
ran 2 1 cast 3 0
ran 4 0 casted 0
did 0 0 started
did 3 1 closed
seen 0 0 2 3 4
thread 4 owner 0
ran 3 0 visit 2 1 0
ran 3 1 cast 3 0
ran 0 0 stop
device 0 1 0 1
home 4 1
end
";

/// A visit that finds two channels: the second client's is its second one, and the third client put its own before.
pub const HOLDERS: &str = "\
lightrun report 1
scheduler static
reactors 4
period 1000000
pool 4 1
images 1
image m 16 4
clients 3
client a 4 5
op get 0
op write 0 0 1 aa
op read 0 0 1
op visit 0
op put 0
client b 4 5
op get 0
op flush 0
op put 0
op get 0
op read 0 0 1
client c 4 3
op get 0
op put 0
op each
thread 0 app 0
ran 1 0 visit 1 3 0
ran 3 0 cast 3 2
ran 1 1 done
ran 3 1 done
ran 2 0 done
did 5 0 began 4
called 5 0
thread 1 client 1
ran 4 0 reply 1
ran 0 0 visit 1 3 0
ran 4 1 reply 2
ran 4 2 visited 3
ran 1 0 putself 0
did 0 0 given 0
did 0 1 sent
did 0 2 sent
did 0 3 started
did 4 4 deferred
did 4 5 closed
reply 1 ok
reply 2 bytes aaaaaaaaaaaaaaaaaaaaaaaaaaaaaaaa
seen 3 1:2 2:1
thread 2 client 2
ran 4 0 reply 1
ran 2 0 putself 0
ran 1 0 visit 1 3 0
ran 4 1 reply 4
ran 0 0 cast 3 2
ran 2 1 putself 0
did 0 0 given 1
did 0 1 sent
did 1 2 deferred
did 2 3 given 2
did 2 4 sent
did 5 5 closed
reply 1 writes 1
reply 4 bytes aaaaaaaaaaaaaaaaaaaaaaaaaaaaaaaa
thread 3 client 3
ran 3 0 putself 0
ran 2 0 visit 1 3 0
ran 2 1 cast 3 2
ran 4 0 casted 2
did 0 0 given 3
did 0 1 deferred
did 0 2 started
did 4 3 closed
seen 2 0 2 3 4
thread 4 owner 0
ran 1 0 request 1
ran 2 0 request 1
ran 1 1 request 2
ran 3 0 visit 1 3 0
ran 2 1 request 4
ran 3 1 cast 3 2
ran 0 0 stop
device 0 4 0 1
home 4 1
end
";
