ghost use Rattle.std.specs.Prelude.{◌≡◌, ◌↔◌, ◌≤◌, IfErr, IfOk, IsErr, length, option_copied};
ghost use Rattle.request_queues.specs.Queue.{HasBlockToDo, HasBlockToRead, IsQueue};
ghost use Rattle.request_queues.specs.Queue.{emptied, empty_queue, first_of_all, first_request};
ghost use Rattle.request_queues.specs.Queue.{with_read, with_request, with_served, without_first};

use circular_buffer::HeapCircularBuffer;
use nesc_base::{Block, NoMemory};
use nesc_requests::{Queued, Request};
use std::alloc::Global;
use std::marker::Model;
use std::mem;

/// The requests that wait for one function, each under its number, in the order in which they came. The first of
/// them, the head, is served block by block.
#[derive(Drop)]
pub struct Queue {
    requests: HeapCircularBuffer<Queued>,
    // how many blocks of the head are done
    done: u32,
    // the number of the next request
    next: u64,
}

impl Model for Queue {
    ghost use Rattle.request_queues.specs.Queue as value;
    ghost use Rattle.request_queues.specs.Queue.{IsQueue, queue_of};

    ghost Value = { value.Queue };

    ghost view = { λ q. queue_of q.requests q.done q.next };

    ghost invariant = { λ q. IsQueue (queue_of q.requests q.done q.next) };
}

impl Queue {
    /// A queue in which so many requests may wait, 0 to 255, and none does. An `Err` says that there is no memory for
    /// them. No other call takes any.
    pub fn new(alloc: Global, depth: u8) -> Result<Queue, NoMemory>
        ensures { IfOk result (λ queue. queue ≡ empty_queue depth) }
    {
        Ok(Queue {
            requests: HeapCircularBuffer::with_capacity(alloc, usize::from(depth))?,
            done: 0,
            next: 1,
        })
    }

    /// Lets a request wait, behind the others, and tells its number: from 1 on, over all requests that the queue has
    /// had. The numbers stand still at 2^64 - 1. An `Err` hands the request back, where as many wait as may, and the
    /// queue is as it was.
    pub fn submit(&mut self, request: Request) -> Result<u64, Request>
        ensures full { IsErr result ↔ (self.old.depth ≤ length self.old.requests) }
        ensures number { IfOk result (λ id. id ≡ self.old.next) }
        ensures waits { IfOk result (λ _. self.new ≡ with_request self.old request) }
        ensures back { IfErr result (λ back. back ≡ request) }
        ensures stays { IfErr result (λ _. self.new ≡ self.old) }
    {
        if self.requests.is_full() {
            return Err(request);
        }
        let id = self.next;
        self.next = id.saturating_add(1);
        let _ = self.requests.try_push_back(Queued { id, request });
        Ok(id)
    }

    /// The request that is served, or `None` where none waits.
    pub fn head(&self) -> Option<&Request>
        ensures { option_copied result ≡ first_request self.now.requests }
    {
        match self.requests.front() {
            Some(queued) => Some(&queued.request),
            None => None,
        }
    }

    /// How many blocks of the head are done, 0 to 64; 0 where none waits.
    pub fn head_done(&self) -> u32
        ensures { result ≡ self.now.done }
    {
        self.done
    }

    /// One block more of the head is done. It has one to do.
    pub fn served(&mut self)
        requires { HasBlockToDo self.old }
        ensures { self.new ≡ with_served self.old }
    {
        let blocks = self.head().map_or(0, |head| head.blocks());
        if self.done < blocks {
            self.done += 1;
        }
    }

    /// Puts a block into the head as the first of its blocks that are not done. It is a read, and has one to do.
    pub fn read_into(&mut self, block: &Block)
        requires { HasBlockToRead self.old }
        ensures { self.new ≡ with_read self.old block.now }
    {
        let done = self.done;
        if let Some(queued) = self.requests.get_mut(0) {
            if let Request::Read { into, .. } = &mut queued.request {
                into.set(done, block);
            }
        }
    }

    /// The head leaves the queue: its number, how many of its blocks are done, 0 to 64, and the request. `None` where
    /// none waits.
    pub fn finish(&mut self) -> Option<(u64, u32, Request)>
        ensures head { result ≡ first_of_all self.old.requests self.old.done }
        ensures rest { self.new ≡ without_first self.old }
    {
        let head = self.requests.pop_front()?;
        let done = mem::take(&mut self.done);
        Some((head.id, done, head.request))
    }

    /// How many requests wait, 0 to 255.
    pub fn len(&self) -> u32
        ensures count { result ≡ length self.now.requests }
        ensures sound { IsQueue self.now }
    {
        self.requests.len() as u32
    }

    /// No request waits any more. The numbers go on.
    pub fn clear(&mut self)
        ensures { self.new ≡ emptied self.old }
    {
        self.requests.clear();
        self.done = 0;
    }
}

#[cfg(test)]
mod tests {
    use super::{Block, Global, NoMemory, Queue, Request};
    use nesc_base::Blocks;
    use std::test::Fail;

    const MARK: Block = Block([7; 1024]);

    fn read(alloc: Global, v: u32) -> Result<Request, NoMemory> {
        Ok(Request::Read {
            v,
            into: Blocks::zeros(alloc, 2)?,
        })
    }

    // Serves the next block of the head, if that is a read.
    fn serve(queue: &mut Queue, block: &Block) {
        let left = match queue.head() {
            Some(Request::Read { into, .. }) => queue.head_done() < into.len(),
            _ => false,
        };
        if left {
            queue.read_into(block);
            queue.served();
        }
    }

    // The request is a read from this block on into zeros and this block.
    fn is_read(request: &Request, at: u32, second: &Block) -> bool {
        match request {
            Request::Read { v, into } if *v == at && into.len() == 2 => {
                into.get(0) == Block::zero() && into.get(1) == *second
            }
            _ => false,
        }
    }

    // The head comes out under its number, with its own blocks.
    fn passes(queue: &mut Queue, v: u32) -> bool {
        serve(queue, &Block::zero());
        serve(queue, &MARK);
        match queue.finish() {
            Some((id, 2, request)) => id == u64::from(v) + 1 && is_read(&request, v, &MARK),
            _ => false,
        }
    }

    // So does each request that goes through a queue that is kept full.
    fn goes_round(alloc: Global, depth: u8) -> Result<bool, NoMemory> {
        let mut queue = Queue::new(alloc, depth)?;
        let depth = u32::from(depth);
        for v in 0..depth {
            let _ = queue.submit(read(alloc, v)?);
        }
        for v in 0..2 * depth {
            if queue.len() != depth || !passes(&mut queue, v) {
                return Ok(false);
            }
            let _ = queue.submit(read(alloc, depth + v)?);
        }
        Ok(true)
    }

    #[test]
    fn queues_of_one_and_of_64_go_round(rt: HostRuntime) -> Result<(), Fail> {
        assert!(rt; goes_round(rt.alloc(), 1)?);
        assert!(rt; goes_round(rt.alloc(), 64)?);
        Ok(())
    }

    #[test]
    fn a_full_queue_hands_the_request_back(rt: HostRuntime) -> Result<(), Fail> {
        let alloc = rt.alloc();
        let mut queue = Queue::new(alloc, 1)?;
        assert!(rt; matches!(queue.submit(Request::Flush), Ok(1)));
        match queue.submit(read(alloc, 9)?) {
            Err(back) => assert!(rt; is_read(&back, 9, &Block::zero())),
            Ok(_) => assert!(rt; false),
        }
        assert!(rt; queue.len() == 1 && matches!(queue.head(), Some(Request::Flush)));
        Ok(())
    }

    #[test]
    fn the_next_head_begins_with_no_block_done(rt: HostRuntime) -> Result<(), Fail> {
        let alloc = rt.alloc();
        let mut queue = Queue::new(alloc, 2)?;
        assert!(rt; queue.submit(read(alloc, 1)?).is_ok() && queue.submit(read(alloc, 2)?).is_ok());
        serve(&mut queue, &MARK);
        assert_eq!(rt; queue.head_done(), 1);
        assert!(rt; matches!(queue.finish(), Some((1, 1, Request::Read { v: 1, .. }))));
        assert_eq!(rt; queue.head_done(), 0);
        assert!(rt; matches!(queue.finish(), Some((2, 0, Request::Read { v: 2, .. }))));
        assert!(rt; queue.finish().is_none());
        Ok(())
    }

    #[test]
    fn a_clear_leaves_the_numbers(rt: HostRuntime) -> Result<(), Fail> {
        let alloc = rt.alloc();
        let mut queue = Queue::new(alloc, 2)?;
        assert!(rt; queue.submit(read(alloc, 1)?).is_ok() && queue.submit(Request::Flush).is_ok());
        serve(&mut queue, &MARK);
        queue.clear();
        assert!(rt; queue.len() == 0 && queue.head().is_none() && queue.head_done() == 0);
        assert!(rt; matches!(queue.submit(Request::Flush), Ok(3)));
        assert!(rt; matches!(queue.finish(), Some((3, 0, Request::Flush))));
        Ok(())
    }
}
