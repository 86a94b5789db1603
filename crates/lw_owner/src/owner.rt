//! What an owner keeps.
ghost use Rattle.std.specs.Prelude.{◌≡◌, ◌==◌, ◌&&◌, false, [], length, All, Some};
ghost use Rattle.lw_thread.specs.Acts.{Known, no_asks};
ghost use Rattle.lw_mail.specs.Runs.{Run};
ghost use Rattle.lw_whole.specs.Letters.{Letter};
ghost use Rattle.lw_model.specs.Threads.{thread_count};
ghost use Rattle.lw_image.specs.Image.{IsAfter};
ghost use Rattle.lw_owner.specs.Serving.{IsOwnerOf};
ghost use Rattle.lw_owner.specs.Keeping.{Keeps};

use lw_base::Items;
use lw_channel::ChannelSet;
use lw_image::Image;
use lw_mail::Mail;
use lw_model::Script;
use std::alloc::Global;
use std::sync::Arc;

/// The owner of one image. It runs each request on the image as it then is, and its reply is asked for at once.
///
/// It keeps each message that comes back, and each that no run sends to an owner; then it never ends.
#[derive(Drop)]
pub struct Owner {
    pub alloc: Global,
    /// The run's script, in which the ops of requests stand.
    pub script: Arc<Script, Global>,
    /// The number of its thread.
    pub thread: u32,
    pub image: Image,
    /// Its set of channels, in which no channel ever stands.
    pub set: ChannelSet,
    /// The messages that it keeps.
    pub kept: Items<Mail>,
    /// Whether it has run a Stop.
    pub ended: bool,
}

impl Owner {
    /// The owner of an image, which has run nothing. `thread` is the number of its thread, and the set is its thread's.
    ///
    /// It is lawful for a thread of that number that has run and sent nothing, where the script and the set are the run's, and the
    /// image is one of zeros of the size that the script says.
    pub fn new(
        alloc: Global,
        script: Arc<Script, Global>,
        thread: u32,
        image: Image,
        set: ChannelSet,
    ) -> Owner
        ensures made { result ≡ record {
          alloc = alloc;
          script = script;
          thread = thread;
          image = image;
          set = set;
          kept = [];
          ended = false;
        } }
        ensures lawful { (run : Run) (k : Known Letter Run) → IsOwnerOf run result → IsAfter image []
            → k.family ≡ Some run → k.thread ≡ thread → k.ran ≡ []
            → length k.sent ≡ thread_count run.script → All (λ ls. ls ≡ []) k.sent
            → Keeps k no_asks result }
    {
        Owner {
            alloc,
            script,
            thread,
            image,
            set,
            kept: Items::new(alloc),
            ended: false,
        }
    }
}
